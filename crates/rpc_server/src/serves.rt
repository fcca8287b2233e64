//! The server, as the loops of a replay ask of it.
ghost use Rattle.rpc_schedule.specs.ends.EndState.{WasFed, heard as heard_in};
ghost use Rattle.rpc_frames.proofs.Growing.{no_fewer};
ghost use Rattle.rpc_ids.specs.declared.method.Role.TheVariants.{Server as server_role};

use crate::Server;
use rpc_handlers::Maker;
use rpc_journal::{Item, StartRefused};
use rpc_schedule::Serves;

impl<M: Maker> Serves for Server<M> {
    ghost seen = { λ s. s.serving };

    ghost rule = { M.H.rule };

    ghost heard = { heard_in server_role };

    ghost stands = { WasFed server_role };

    fn feed(&mut self, piece: &[u8]) -> Result<usize, StartRefused> {
        self.feed_to_packet(piece)
    }

    fn work(&mut self) -> Result<bool, StartRefused> {
        self.work()
    }

    fn end_in(&mut self) {
        self.end_in();
    }

    fn next_out(&mut self) -> Option<Item> {
        self.next_out()
    }

    fn idle(&self) -> bool {
        self.idle()
    }

    ghost arrived = { λ s bytes fed. fed.packets };

    ghost more_heard = { no_fewer server_role };
}
