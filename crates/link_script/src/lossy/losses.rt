ghost use Rattle.std.specs.Prelude.{◌≡◌};
ghost use Rattle.link_script.specs.lossy.Link.{loss_of};

use crate::Loss;

/// What is done to the frame of this number, where these are the numbers of the frames to which something is done. Of two
/// losses of one frame the first counts.
pub fn loss_of(number: u64, losses: &[(u32, Loss)]) -> Option<Loss>
    ensures { result ≡ loss_of number losses.now }
{
    for &(frame, loss) in losses {
        if u64::from(frame) == number {
            return Some(loss);
        }
    }
    None
}
