//! The parts of a format.
ghost use Rattle.std.specs.Prelude.{◌≡◌};
ghost use Rattle.token_text.specs.Format.{is_argument as is_argument_of};
ghost use Rattle.token_text.specs.Printing.{spaces_of, zeros_of};

/// How the digits of a number are written.
#[derive(Clone, Copy, Debug, PartialEq, Eq)]
pub enum Notation {
    /// `d`: decimal, with a minus in front of a negative number.
    Signed,
    /// `u`: decimal, modulo 2^64.
    Unsigned,
    /// `x`: lower-case hexadecimal, modulo 2^64.
    Hexadecimal,
}

/// How a number is filled up on the left.
#[derive(Clone, Copy, Debug, PartialEq, Eq)]
pub enum Padding {
    /// Not at all.
    Bare,
    /// With spaces, to this width of 1 to 20.
    Spaces(u8),
    /// With zeros behind the sign, to this width of 1 to 20.
    Zeros(u8),
}

impl Padding {
    /// The width that is filled up with spaces.
    pub fn spaces(self) -> u8
        ensures { result ≡ spaces_of self }
    {
        match self {
            Padding::Spaces(width) => width,
            _ => 0,
        }
    }

    /// The width that is filled up with zeros.
    pub fn zeros(self) -> u8
        ensures { result ≡ zeros_of self }
    {
        match self {
            Padding::Zeros(width) => width,
            _ => 0,
        }
    }
}

/// A part of a format.
#[derive(Clone, Copy, Debug, PartialEq, Eq)]
pub enum Part {
    /// A byte that prints as itself. The percent sign is written twice in a format.
    Byte(u8),
    /// A number, which takes an argument.
    Number {
        padding: Padding,
        notation: Notation,
    },
    /// A text, which takes an argument.
    Text,
}

impl Part {
    /// Whether the part takes an argument.
    pub fn is_argument(&self) -> bool
        ensures { result ≡ is_argument_of self.now }
    {
        !matches!(self, Part::Byte(_))
    }
}
