//! What comes in.
ghost use Rattle.std.specs.Prelude.{◌≡◌, ℕ, List, ◌<◌, ◌≤◌, true, false, length, Some, Err, IfOk, IfSome, OnErr};
ghost use Rattle.rpc_journal.specs.declared.answers.StartRefused.{StartRefused};
ghost use Rattle.rpc_journal.specs.Conditions.{IsHeard};
ghost use Rattle.rpc_journal.specs.Items.{input_ended};
ghost use Rattle.rpc_schedule.specs.Serving.{EndsInput, FedBy, Feeds, deeds, is_idle};
ghost use Rattle.rpc_frames.specs.Listening.{StopsAtSegment};
ghost use Rattle.rpc_schedule.specs.ends.Feeding.{TakesIn};
ghost use Rattle.rpc_schedule.specs.ends.EndState.{WasFed, heard};
ghost use Rattle.rpc_ids.specs.declared.method.Role.TheVariants.{Server as server_role};

use super::Server;
use rpc_handlers::Maker;
use rpc_journal::{ArriveRefused, StartRefused};
use rpc_packet::Packet;
use rpc_schedule::ARRIVALS;

impl<M: Maker> Server<M> {
    /// Takes bytes from the front of the piece, up to the end of the first frame or bad segment in it, and answers how
    /// many. A packet in that frame arrives. Of an empty piece none is taken.
    ///
    /// # Errors
    ///
    /// Where the packet was refused. It didn't arrive then, and each later `feed` answers the same.
    pub fn feed(&mut self, piece: &[u8]) -> Result<usize, StartRefused>
        requires open { input_ended (deeds self.old.serving) ≡ false }
        requires idle { is_idle self.old.serving ≡ true }
        ensures taken { IfOk result (λ n. n ≤ length piece.now) }
        ensures progress { IfOk result (λ n. 0 < length piece.now → 0 < n) }
        ensures step { Feeds self.old.serving result self.new.serving }
        ensures again { (why : StartRefused) → self.old.serving.refused ≡ Some why →
            (result ≡ Err why) × (self.new ≡ self.old) }
        ensures stops { IfOk result (λ n. StopsAtSegment self.old.listener piece.now n) }
        ensures fed { IfOk result (FedBy (heard server_role) (WasFed server_role self.old) (WasFed server_role self.new) piece.now) }
        ensures refused_fed { OnErr result ((n : ℕ) × FedBy (heard server_role) (WasFed server_role self.old) (WasFed server_role self.new) piece.now n) }
    {
        if let Some(refused) = self.refused {
            return Err(refused);
        }
        if piece.is_empty() {
            return Ok(0);
        }
        match self.listener.listen(piece) {
            Ok(listened) => {
                self.take_in(&listened.packet)?;
                Ok(listened.taken)
            }
            Err(_) => {
                self.refused = Some(StartRefused::Memory);
                Err(StartRefused::Memory)
            }
        }
    }

    // As `feed`, up to the end of the first frame with a packet.
    pub(crate) fn feed_to_packet(&mut self, piece: &[u8]) -> Result<usize, StartRefused>
        requires open { input_ended (deeds self.old.serving) ≡ false }
        requires idle { is_idle self.old.serving ≡ true }
        ensures progress { IfOk result (λ n. 0 < length piece.now → 0 < n) }
        ensures step { Feeds self.old.serving result self.new.serving }
        ensures fed { IfOk result (FedBy (heard server_role) (WasFed server_role self.old) (WasFed server_role self.new) piece.now) }
        ensures refused_fed { OnErr result ((n : ℕ) × FedBy (heard server_role) (WasFed server_role self.old) (WasFed server_role self.new) piece.now n) }
    {
        if let Some(refused) = self.refused {
            return Err(refused);
        }
        match self.listener.listen_for_packet(piece) {
            Ok(heard) => {
                self.take_in(&heard.packet)?;
                Ok(heard.taken)
            }
            Err(_) => {
                self.refused = Some(StartRefused::Memory);
                Err(StartRefused::Memory)
            }
        }
    }

    // The packet that was heard, if any, arrives, or is refused.
    fn take_in(&mut self, heard: &Option<Packet>) -> Result<(), StartRefused>
        requires open { input_ended (deeds self.old.serving) ≡ false }
        requires idle { is_idle self.old.serving ≡ true }
        requires heard { IfSome heard.now (IsHeard self.old.serving.table.setting) }
        ensures step { TakesIn heard.now self.old.serving result self.new.serving }
        ensures listener { self.new.listener ≡ self.old.listener }
    {
        let Some(packet) = heard else {
            return Ok(());
        };
        match self.calls.arrive(ARRIVALS, packet, &self.maker) {
            Ok(_) => Ok(()),
            Err(ArriveRefused::JournalFull) => {
                self.refused = Some(StartRefused::JournalFull);
                Err(StartRefused::JournalFull)
            }
            // No event waits, so no queue is full.
            Err(ArriveRefused::QueueFull(_)) => unreachable!(),
            Err(ArriveRefused::Memory) => {
                self.refused = Some(StartRefused::Memory);
                Err(StartRefused::Memory)
            }
        }
    }

    /// The input has ended: each live call is told so, after its other events. It is never refused, and takes no memory.
    pub fn end_in(&mut self)
        requires open { input_ended (deeds self.old.serving) ≡ false }
        ensures step { EndsInput self.old.serving self.new.serving }
        ensures listener { self.new.listener ≡ self.old.listener }
        ensures fed { (bytes : List ℕ) → WasFed server_role self.old bytes → WasFed server_role self.new bytes }
    {
        self.calls.end_in(ARRIVALS);
    }
}
