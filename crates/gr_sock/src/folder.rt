//! A folder with a file for each lane, as a system has it.

ghost use Rattle.std.specs.Prelude.{◌≡◌, ℕ, ◌≤◌, ◌<◌, true, length, take, drop, IfOk, OnOk, OnErr};
ghost use Rattle.gr_out.specs.Lane.{over};
ghost use Rattle.gr_sock.specs.Folder.{FileView, AllSame, OthersSame, AllRemain, with_bytes, all_kept};

use gr_out::Memory;
use std::io;

/// A folder with a file for each lane, as a system has it.
///
/// A folder that tells what it holds tells of each file its bytes, whether they have reached the device, and whether
/// its name has. `size` and the calls after it are an error at a file that is not open.
pub trait Folder {
    /// That the folder tells what it holds.
    ghost tells: { Type 0 };

    /// The file of a lane.
    ghost file_of: { Self → ℕ → FileView };

    /// Takes the memory for the file of a lane, so that the later calls on it take none.
    fn reserve(&mut self, lane: u16) -> Result<(), Memory>
        ensures same { tells → AllSame (file_of self.old) (file_of self.new) };

    /// Opens the file of a lane. Where there is none it is made, and the folder too. One that is open stays open.
    fn open(&mut self, lane: u16) -> io::Result<()>
        ensures remains { tells → AllRemain (file_of self.old) (file_of self.new) };

    /// How many bytes the file of a lane has.
    fn size(&mut self, lane: u16) -> io::Result<u64>
        ensures size { tells → IfOk result (λ n. n ≡ length (file_of self.old lane).bytes) }
        ensures same { tells → AllSame (file_of self.old) (file_of self.new) };

    /// Reads some bytes from a place on to the front of `into`, and answers how many: none at the end and past it.
    fn read_some(&mut self, lane: u16, at: u64, into: &mut [u8]) -> io::Result<usize>
        ensures count { IfOk result (λ n. n ≤ length into.new) }
        ensures len { length into.new ≡ length into.old }
        ensures bytes { tells → IfOk result (λ n. take n into.new ≡ take n (drop at (file_of self.old lane).bytes)) }
        ensures same { tells → AllSame (file_of self.old) (file_of self.new) };

    /// Writes some bytes from the front of `bytes` over the file, from a place on that is no later than its end, and
    /// answers how many.
    fn write_some(&mut self, lane: u16, at: u64, bytes: &[u8]) -> io::Result<usize>
        ensures count { IfOk result (λ n. n ≤ length bytes.now) }
        ensures ok { tells → at ≤ length (file_of self.old lane).bytes → IfOk result (λ n. file_of self.new lane
            ≡ with_bytes (over at (take n bytes.now) (file_of self.old lane).bytes) (file_of self.old lane)) }
        ensures err { tells → OnErr result (file_of self.new lane ≡ file_of self.old lane) }
        ensures named { tells → (file_of self.new lane).is_named ≡ (file_of self.old lane).is_named }
        ensures others { tells → OthersSame lane (file_of self.old) (file_of self.new) };

    /// Cuts the file to a length, which is at most its own.
    fn cut(&mut self, lane: u16, len: u64) -> io::Result<()>
        ensures ok { tells → len ≤ length (file_of self.old lane).bytes → OnOk result (file_of self.new lane
            ≡ with_bytes (take len (file_of self.old lane).bytes) (file_of self.old lane)) }
        ensures err { tells → OnErr result (file_of self.new lane ≡ file_of self.old lane) }
        ensures named { tells → (file_of self.new lane).is_named ≡ (file_of self.old lane).is_named }
        ensures others { tells → OthersSame lane (file_of self.old) (file_of self.new) };

    /// Brings all that the file holds to the device.
    fn sync(&mut self, lane: u16) -> io::Result<()>
        ensures ok { tells → OnOk result (file_of self.new lane ≡ all_kept (file_of self.old lane)) }
        ensures err { tells → OnErr result (file_of self.new lane ≡ file_of self.old lane) }
        ensures others { tells → OthersSame lane (file_of self.old) (file_of self.new) };

    /// Brings the name of the file to the device, and that of the folder.
    fn sync_name(&mut self, lane: u16) -> io::Result<()>
        ensures ok { tells → OnOk result ((file_of self.new lane).is_named ≡ true) }
        ensures remains { tells → AllRemain (file_of self.old) (file_of self.new) };
}
