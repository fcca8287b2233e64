ghost use Rattle.std.specs.Prelude.{◌≡◌};
ghost use Rattle.transfer_receiver.specs.declared.receiver.TheConstants.{MAX_RESENDS};
ghost use Rattle.transfer_receiver.specs.Run.{EndedWellJoins, JoinedPartsAreTheResource, KeepsTheResource, KeptPiecesJoin};

/// The numbers of a receiver.
pub fn numbers_of_a_receiver()
    ensures resends { MAX_RESENDS ≡ 3 }
{}

/// Whatever comes to a receiver, the pieces that it keeps join from its first offset on, and the end
/// OK comes exactly at the last of them.
pub fn kept_pieces_join()
    ensures joins { KeptPiecesJoin }
    ensures ended_well { EndedWellJoins }
{}

/// Of the pieces of one resource, lost, repeated or late, a receiver has kept a beginning of that
/// resource from its first offset on, and all of it once it has ended OK.
pub fn keeps_the_resource()
    ensures { KeepsTheResource }
{}

/// What joins of parts of one resource, from an offset on, is all of the resource from there.
pub fn joined_parts_are_the_resource()
    ensures { JoinedPartsAreTheResource }
{}
