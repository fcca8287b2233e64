//! What holds of both ends of a transfer together, whatever the link between them loses, repeats or reorders.
//! It has laws, which are functions that do nothing and promise something of the definitions of both cores.
//! Enter at [`cores_agree`] and [`asks_are_few`].
ghost use Rattle.transfer_laws.specs.cores.Asks.{AsksAreFew};
ghost use Rattle.transfer_laws.specs.cores.Transfer.{CoresAgree};

/// Of what one sender sends, lost, repeated or in any order, a receiver has kept a beginning of the
/// sender's resource from its own first offset on, and all of it once it has ended OK.
pub fn cores_agree()
    ensures { CoresAgree }
{}

/// Where all pieces of a resource come in order and whole, a receiver asks, the first parameters apart, at most once for
/// 32 pieces, and five times besides.
pub fn asks_are_few()
    ensures { AsksAreFew }
{}
