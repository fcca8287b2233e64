//! What holds of all books and messages.
ghost use Rattle.std.specs.Prelude.{◌≡◌, ℕ, List, Some};
ghost use Rattle.token_text.specs.Arguments.{Argument};
ghost use Rattle.token_text.specs.Book.{Entry, IsMessage};
ghost use Rattle.token_text.specs.Computed.{text_in};
ghost use Rattle.token_text.specs.Printing.{text_of};

/// A message has one text: `text_in` computes it, and gives one exactly where the message is one of a format of the book
/// and of some arguments.
pub fn message_has_one_text()
    ensures one { (book : List Entry) (message : List ℕ) (format : Entry) (args : List Argument) → IsMessage book message format args →
        text_in book message ≡ Some (text_of format.parts args) }
    ensures only { (book : List Entry) (message text : List ℕ) → text_in book message ≡ Some text →
        (format : Entry) × (args : List Argument) × IsMessage book message format args × (text ≡ text_of format.parts args) }
{}
