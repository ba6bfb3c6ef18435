//! Adapters to readers, writers, files and sockets: over ones in memory that are short, fail or stand still, and over
//! real files and sockets.

ghost use Rattle.std.specs.Prelude.{◌≡◌, ◌==◌, ◌∷◌, false, [], if◌then◌else◌, map, OnOk};

use gr_event::Event;
use gr_out::{Arrival, Disk, Memory, Post, PostFault, Sink, Source};
use gr_pace::Paced;
use gr_publog::{Log, Record};
use gr_sock::{
    Address, FileDisk, Folder, LogFolder, Network, StdSink, StdSource, UdpNetwork, UdpPost,
};
use std::alloc::{Alloc, Global};
use std::cell::Cell;
use std::fs::File;
use std::io::{ErrorKind, Read, Write};
use std::net::{Ipv4Addr, Net, SocketAddr, UdpSocket};
use std::os::unix::fs::{MetadataExt, symlink};
use std::process::Abort;
use std::rt::{Clock, Files};
use std::test::Fail;
use std::time::Duration;
use std::{fs, io};

/// A reader of `abc` that gives one byte at a time. The call with this number fails.
#[derive(Drop)]
struct Stub {
    left: u8,
    calls: u8,
    fails: u8,
}

impl Read for Stub {
    fn read(&mut self, buf: &mut [u8]) -> io::Result<usize> {
        self.calls = self.calls.wrapping_add(1);
        if self.calls == self.fails {
            return Err(ErrorKind::Other.into());
        }
        if self.left == 0 || buf.is_empty() {
            return Ok(0);
        }
        buf[0] = b'c' - (self.left - 1).min(2);
        self.left -= 1;
        Ok(1)
    }
}

/// A writer that takes at most two bytes at a time. The call with this number fails, and the one after it takes
/// nothing.
#[derive(Drop)]
struct Funnel {
    calls: u8,
    fails: u8,
}

impl Write for Funnel {
    fn write(&mut self, buf: &[u8]) -> io::Result<usize> {
        self.calls = self.calls.wrapping_add(1);
        if self.calls == self.fails {
            return Err(ErrorKind::Other.into());
        }
        if self.calls == self.fails.wrapping_add(1) {
            return Ok(0);
        }
        Ok(buf.len().min(2))
    }

    fn flush(&mut self) -> io::Result<()> {
        Ok(())
    }
}

/// Each byte comes once, an error is a failure and not the end, and the end comes after the last byte.
#[test]
fn reads_what_there_is(rt: HostRuntime) -> Result<(), Fail> {
    let mut source = StdSource::new(Stub {
        left: 3,
        calls: 0,
        fails: 2,
    });
    let mut piece = [0u8; 2];
    for (answer, byte) in [(1, b'a'), (9, b'a'), (1, b'b'), (1, b'c'), (0, b'c')] {
        let read = source.read(&mut piece).unwrap_or(9);
        assert!(rt; read == answer && piece[0] == byte);
    }
    Ok(())
}

/// A short write is told as short; an error and a write that takes nothing are failures.
#[test]
fn writes_what_is_taken(rt: HostRuntime) -> Result<(), Fail> {
    let mut sink = StdSink::new(Funnel { calls: 0, fails: 2 });
    for answer in [2, 9, 9, 2] {
        assert!(rt; sink.write(b"abc").unwrap_or(9) == answer);
    }
    assert!(rt; sink.write(b"").unwrap_or(9) == 0);
    Ok(())
}

/// A folder with the file of lane 0 alone. A call moves at most `most` bytes. The call with this number fails, counted
/// over the calls at an open file.
#[derive(Drop)]
struct FakeFolder {
    alloc: Global,
    bytes: Vec<u8>,
    is_open: bool,
    is_kept: bool,
    is_named: bool,
    most: usize,
    calls: u64,
    fails: u64,
}

impl FakeFolder {
    /// An empty folder.
    fn new(alloc: Global, most: usize, fails: u64) -> FakeFolder {
        FakeFolder {
            alloc,
            bytes: Vec::new(alloc),
            is_open: false,
            is_kept: false,
            is_named: false,
            most,
            calls: 0,
            fails,
        }
    }
}

/// Counts a call at the file of a lane, and says where it fails.
fn begin(lane: u16, is_open: bool, calls: &mut u64, fails: u64) -> io::Result<()>
    ensures { OnOk result (lane ≡ 0) }
{
    *calls = calls.wrapping_add(1);
    if lane != 0 || !is_open || *calls == fails {
        return Err(ErrorKind::Other.into());
    }
    Ok(())
}

impl Folder for FakeFolder {
    ghost tells = { Unit {0} };

    ghost file_of = { λ f n. record {
      bytes = if n == 0 then f.bytes.items else [];
      is_kept = if n == 0 then f.is_kept else false;
      is_named = if n == 0 then f.is_named else false;
    } };

    fn reserve(&mut self, _lane: u16) -> Result<(), Memory> {
        Ok(())
    }

    fn open(&mut self, lane: u16) -> io::Result<()> {
        self.is_open = true;
        begin(lane, true, &mut self.calls, self.fails)
    }

    fn size(&mut self, lane: u16) -> io::Result<u64> {
        begin(lane, self.is_open, &mut self.calls, self.fails)?;
        Ok(self.bytes.len() as u64)
    }

    fn read_some(&mut self, lane: u16, at: u64, into: &mut [u8]) -> io::Result<usize> {
        begin(lane, self.is_open, &mut self.calls, self.fails)?;
        let Some(left) = self.bytes.get(at as usize..) else {
            return Ok(0);
        };
        let n = left.len().min(into.len()).min(self.most);
        into[..n].copy_from_slice(&left[..n]);
        Ok(n)
    }

    fn write_some(&mut self, lane: u16, at: u64, bytes: &[u8]) -> io::Result<usize> {
        begin(lane, self.is_open, &mut self.calls, self.fails)?;
        let n = bytes.len().min(self.most);
        let start = at as usize;
        if start > self.bytes.len() {
            return Err(ErrorKind::InvalidInput.into());
        }
        let end = self.bytes.len().min(start.saturating_add(n));
        let mut all = Vec::from_slice(self.alloc, &self.bytes[..start])?;
        all.extend_from_slice(&bytes[..n])?;
        all.extend_from_slice(&self.bytes[end..])?;
        self.bytes = all;
        self.is_kept = false;
        Ok(n)
    }

    fn cut(&mut self, lane: u16, len: u64) -> io::Result<()> {
        begin(lane, self.is_open, &mut self.calls, self.fails)?;
        self.bytes.truncate(len as usize);
        self.is_kept = false;
        Ok(())
    }

    fn sync(&mut self, lane: u16) -> io::Result<()> {
        begin(lane, self.is_open, &mut self.calls, self.fails)?;
        self.is_kept = true;
        Ok(())
    }

    fn sync_name(&mut self, lane: u16) -> io::Result<()> {
        begin(lane, self.is_open, &mut self.calls, self.fails)?;
        self.is_named = true;
        Ok(())
    }
}

/// Short calls are put together, and a call that fails is a failure of the call above it, which keeps what the folder
/// said: of the write, which makes the calls 1 to 6, of the sync, call 7, or of the read, calls 8 and 9. Where call 6
/// fails, four bytes stand there.
#[test]
fn puts_short_calls_together(rt: HostRuntime) -> Result<(), Fail> {
    for fails in 1..11 {
        let mut disk = FileDisk::new(rt.alloc(), FakeFolder::new(rt.alloc(), 2, fails));
        let mut piece = [0u8; 3];
        let written = disk.write_at(0, 0, b"abcde").is_ok();
        let synced = disk.sync(0).is_ok();
        let read = disk.read(0, 1, &mut piece).is_ok();
        assert!(rt; written == (fails > 6) && synced == (fails != 7));
        assert!(rt; read == (fails == 6 || fails == 7 || fails > 9));
        assert!(rt; (piece == *b"bcd") == read);
        assert!(rt; disk.last_error().is_none() == (fails == 10));
        assert!(rt; disk.last_error().is_none_or(|said| said.lane == 0));
    }
    Ok(())
}

/// The permissions of a path.
fn mode_of(files: &impl Files, path: &str) -> io::Result<u32> {
    Ok(fs::symlink_metadata(files, path)?.mode() & 0o777)
}

/// Whether a lane is written, cut and synced through a disk.
fn writes_a_lane<F: Folder>(disk: &mut FileDisk<F>) -> bool {
    let is_new = disk.size(4) == Ok(0) && disk.reserve(4, 6).is_ok();
    let is_written = disk.write_at(4, 0, b"abcdef").is_ok() && disk.sync(4).is_ok();
    let is_as_long = disk.cut(4, 9).is_ok() && disk.size(4) == Ok(6);
    is_new && is_written && is_as_long && disk.cut(4, 5).is_ok()
}

/// Whether a lane holds what was written, and no more.
fn holds_a_lane<F: Folder>(disk: &mut FileDisk<F>) -> bool {
    let mut room = [0u8; 3];
    let is_read = disk.read(4, 2, &mut room).is_ok();
    is_read && room == *b"cde" && disk.read(4, 3, &mut room).is_err()
}

/// Whether no call of a disk is carried out, since the folder has another owner.
fn is_kept_out<F: Folder>(disk: &mut FileDisk<F>) -> bool {
    let is_refused = disk.size(4).is_err() && disk.size(6).is_err();
    let said = disk.last_error().map(|s| (s.lane, s.error.kind()));
    is_refused && said == Some((6, ErrorKind::ResourceBusy))
}

/// A lane in a real file: what is written is read back, also by another disk over the same folder, once no disk has it
/// any more; while one has it, none of the other's calls is carried out. Nobody but the owner may read it.
fn keeps_a_lane(rt: &(impl Abort + Alloc + Files<File = File>), alloc: Global) -> Result<(), Fail> {
    let mut disk = FileDisk::new(alloc, LogFolder::new(alloc, rt));
    assert!(rt; writes_a_lane(&mut disk));
    let mut again = FileDisk::new(alloc, LogFolder::new(alloc, rt));
    assert!(rt; is_kept_out(&mut again));
    assert!(rt; !fs::exists(rt, "gryphon-log/lane-6")?);
    drop(disk);
    assert!(rt; holds_a_lane(&mut again));
    let bytes = fs::read(rt, "gryphon-log/lane-4")?;
    assert!(rt; bytes.as_slice() == b"abcde".as_slice());
    assert!(rt; mode_of(rt, "gryphon-log")? == 0o700);
    assert!(rt; mode_of(rt, "gryphon-log/lane-4")? == 0o600);
    Ok(())
}

/// No link is followed: to a file that is there, to one that is not, or to a folder.
fn follows_no_link(
    rt: &(impl Abort + Alloc + Files<File = File>),
    alloc: Global,
) -> Result<(), Fail> {
    fs::write(rt, "elsewhere", b"kept")?;
    symlink(rt, "../elsewhere", "gryphon-log/lane-8")?;
    symlink(rt, "../nowhere", "gryphon-log/lane-10")?;
    let mut disk = FileDisk::new(alloc, LogFolder::new(alloc, rt));
    assert!(rt; disk.cut(8, 0).is_err());
    assert!(rt; disk.size(10).is_err());
    assert!(rt; !fs::exists(rt, "nowhere")?);
    let bytes = fs::read(rt, "elsewhere")?;
    assert!(rt; bytes.as_slice() == b"kept".as_slice());
    drop(disk);
    fs::rename(rt, "gryphon-log", "moved")?;
    symlink(rt, "moved", "gryphon-log")?;
    let mut linked = FileDisk::new(alloc, LogFolder::new(alloc, rt));
    assert!(rt; linked.size(4).is_err());
    Ok(())
}

/// An event of more than 7,000 bytes.
fn long_event(alloc: Global) -> Result<Event, Fail> {
    let mut text = Vec::new(alloc);
    for name in *b"abcdefg" {
        let mark = if text.is_empty() { b'{' } else { b',' };
        text.extend_from_slice(&[mark, b'"', name, b'"', b':', b'"'])?;
        text.extend_from_slice(&[b'x'; 1_000])?;
        text.push(b'"')?;
    }
    text.push(b'}')?;
    Ok(Event::from_text(alloc, &text)?)
}

/// A log of more than a mebibyte goes on, and is read whole.
fn keeps_a_long_log(
    rt: &(impl Abort + Alloc + Files<File = File>),
    alloc: Global,
) -> Result<(), Fail> {
    let mut disk = FileDisk::new(alloc, LogFolder::new(alloc, rt));
    let event = long_event(alloc)?;
    let mut log = Log::open(alloc, &mut disk, 0, &[])?;
    for number in 1..161 {
        let record = Record::Event {
            tick: number,
            number,
            event: event.share(),
        };
        assert!(rt; log.may_follow(&record));
        log.append(&mut disk, &record)?;
    }
    drop(log);
    assert!(rt; disk.size(0)? > 1 << 20);
    let again = Log::open(alloc, &mut disk, 0, &[])?;
    assert!(rt; again.last() == 160);
    Ok(())
}

/// Real files. One test, since the folder of the logs has one name.
#[test]
fn keeps_lanes_in_files(rt: HostRuntime) -> Result<(), Fail> {
    let _ = fs::remove_dir_all(&rt, "gryphon-log");
    keeps_a_lane(&rt, rt.alloc())?;
    keeps_a_long_log(&rt, rt.alloc())?;
    follows_no_link(&rt, rt.alloc())?;
    fs::remove_file(&rt, "gryphon-log")?;
    fs::remove_dir_all(&rt, "moved")?;
    fs::remove_file(&rt, "elsewhere")?;
    Ok(())
}

/// A clock that shows so many milliseconds since 1970, and so many more at each look.
#[derive(Drop)]
struct FakeClock {
    moment: Cell<u64>,
    step: u64,
}

impl FakeClock {
    fn new(moment: u64, step: u64) -> FakeClock {
        FakeClock {
            moment: Cell::new(moment),
            step,
        }
    }
}

impl Clock for FakeClock {
    fn monotonic(&self) -> io::Result<Duration> {
        Ok(Duration::ZERO)
    }

    fn since_1970(&self) -> io::Result<Duration> {
        let moment = self.moment.get();
        self.moment.set(moment.wrapping_add(self.step));
        Ok(Duration::from_millis(moment))
    }
}

/// A datagram that was sent.
#[derive(Drop)]
struct Sent {
    socket: usize,
    to: Address,
    bytes: Vec<u8>,
}

/// A network in memory. Its datagrams have one byte.
#[derive(Drop)]
struct FakeNetwork {
    alloc: Global,
    // What comes, in this order: the socket, and the byte or the error that the socket gives.
    coming: Vec<(usize, Result<u8, ErrorKind>)>,
    opened: Vec<Address>,
    taken: Vec<(usize, u8)>,
    sent: Vec<Sent>,
    waits: Vec<u64>,
}

impl FakeNetwork {
    /// A network in which this comes.
    fn new(alloc: Global, coming: &[(usize, Result<u8, ErrorKind>)]) -> io::Result<FakeNetwork> {
        Ok(FakeNetwork {
            alloc,
            coming: Vec::from_slice(alloc, coming)?,
            opened: Vec::new(alloc),
            taken: Vec::new(alloc),
            sent: Vec::new(alloc),
            waits: Vec::new(alloc),
        })
    }
}

impl Network for FakeNetwork {
    ghost tells = { Unit {0} };

    ghost traffic = { λ n. record {
      opened = n.opened.items;
      taken = map (λ d. (d.0, d.1 ∷ [])) n.taken.items;
      sent = map (λ s. record { socket = s.socket; to = s.to; bytes = s.bytes.items }) n.sent.items;
      waits = n.waits.items;
    } };

    fn open(&mut self, address: Address) -> io::Result<usize> {
        let number = self.opened.len();
        self.opened.push(address)?;
        Ok(number)
    }

    fn take(&mut self, socket: usize, into: &mut [u8]) -> io::Result<usize> {
        let Some(place) = self.coming.iter().position(|d| d.0 == socket) else {
            return Err(ErrorKind::WouldBlock.into());
        };
        if into.is_empty() {
            return Err(ErrorKind::InvalidInput.into());
        }
        self.taken.reserve(1)?;
        match self.coming.remove(place).1 {
            Ok(byte) => {
                into[..1].copy_from_slice(&[byte]);
                self.taken.push((socket, byte))?;
                Ok(1)
            }
            Err(kind) => Err(kind.into()),
        }
    }

    fn send(&mut self, socket: usize, to: Address, bytes: &[u8]) -> io::Result<()> {
        let bytes = Vec::from_slice(self.alloc, bytes)?;
        self.sent.push(Sent { socket, to, bytes })?;
        Ok(())
    }

    fn wait(&mut self, milliseconds: u64) -> io::Result<()> {
        self.waits.push(milliseconds)?;
        Ok(())
    }
}

/// A letter for what `next` answers: the byte of a datagram, `-` for a quiet moment, `!` for a failure.
fn letter<N: Network, C: Clock>(post: &mut UdpPost<N, C>) -> u8 {
    let mut room = [0u8; 4];
    match post.next(&mut room) {
        Ok(Arrival::Datagram { .. }) => room[0],
        Ok(Arrival::Quiet { .. }) => b'-',
        Ok(Arrival::Closed) => b'.',
        Err(_) => b'!',
    }
}

/// Whether the next answers are these, each by its letter.
fn answers<N: Network, C: Clock>(post: &mut UdpPost<N, C>, letters: &[u8]) -> bool {
    for &answer in letters {
        if letter(post) != answer {
            return false;
        }
    }
    true
}

/// A post over a network in memory, with brokers 3 and 4 bound.
fn post_of_two<C: Clock + Drop>(
    alloc: Global,
    coming: &[(usize, Result<u8, ErrorKind>)],
    clock: C,
) -> Result<UdpPost<FakeNetwork, C>, Fail> {
    let mut post = UdpPost::new(alloc, FakeNetwork::new(alloc, coming)?, clock);
    post.bind(3, b"10.0.0.1:7401", true)?;
    post.bind(4, b"10.0.0.2:7401", true)?;
    Ok(post)
}

/// The sockets are looked at in turn; an error of an earlier datagram is passed over, and another is a failure, of
/// which the address is kept. The first quiet moment comes at once.
#[test]
fn takes_turns(rt: HostRuntime) -> Result<(), Fail> {
    let coming = [
        (0, Ok(b'a')),
        (0, Ok(b'b')),
        (1, Err(ErrorKind::ConnectionRefused)),
        (1, Ok(b'x')),
        (0, Err(ErrorKind::Other)),
    ];
    let mut post = post_of_two(rt.alloc(), &coming, FakeClock::new(1_234, 0))?;
    let first = post.next(&mut [0u8; 4]);
    assert!(rt; first == Ok(Arrival::Quiet { moment: 1_234 }));
    assert!(rt; answers(&mut post, b"abx!-"));
    let said = post.last_error();
    let said = said.map(|s| (s.address.map(|a| a.host), s.error.kind()));
    assert!(rt; said == Some((Some([10, 0, 0, 1]), ErrorKind::Other)));
    Ok(())
}

/// From each quiet moment on the waits are twice as long where the offers before it were the same as before the last
/// one, and half as long where they were others twice in a row; but the longest wait stays until they were five times.
#[test]
fn waits_for_news(rt: HostRuntime) -> Result<(), Fail> {
    let mut post = post_of_two(rt.alloc(), &[], FakeClock::new(1_234, 0))?;
    assert!(rt; answers(&mut post, b"-----"));
    for byte in *b"abcdefgghi" {
        assert!(rt; post.offer(3, 4, &[byte]).is_ok() && letter(&mut post) == b'-');
    }
    assert!(rt; letter(&mut post) == b'-');
    let waits = post.network().waits.as_slice();
    assert!(rt; waits == [24, 48, 50, 50, 50, 50, 50, 50, 50, 25, 12, 6, 12, 12, 6].as_slice());
    assert!(rt; post.lost() == 0);
    Ok(())
}

/// Where the caller has no more to do, other offers are news only behind four datagrams, by a count that is halved at
/// each quiet moment. Where it has more to do, there is news each time.
#[test]
fn waits_for_more(rt: HostRuntime) -> Result<(), Fail> {
    let none = (0, Err(ErrorKind::WouldBlock));
    let byte = (0, Ok(b'x'));
    let coming = [none, none, none, none, byte, byte, byte, byte];
    let mut post = post_of_two(rt.alloc(), &coming, FakeClock::new(1_234, 0))?;
    post.pace(false);
    assert!(rt; answers(&mut post, b"-"));
    for byte in *b"ab" {
        assert!(rt; post.offer(3, 4, &[byte]).is_ok() && letter(&mut post) == b'-');
    }
    assert!(rt; post.offer(3, 4, b"c").is_ok() && answers(&mut post, b"xxxx-"));
    post.pace(true);
    assert!(rt; answers(&mut post, b"----"));
    post.pace(false);
    assert!(rt; post.offer(3, 4, b"d").is_ok() && answers(&mut post, b"--"));
    let waits = post.network().waits.as_slice();
    assert!(rt; waits == [24, 48, 50, 50, 50, 50, 50, 25, 50].as_slice());
    Ok(())
}

/// A quiet moment comes 50 milliseconds after the last one, however many datagrams come, and at once where the clock
/// was set back; no wait is longer than until then.
#[test]
fn comes_to_quiet_moments(rt: HostRuntime) -> Result<(), Fail> {
    let clock = FakeClock::new(1_000, 10);
    let mut post = post_of_two(rt.alloc(), &[(0, Ok(b'a')); 13], &clock)?;
    assert!(rt; answers(&mut post, b"-aaaa-aaaa-aaaa-a"));
    clock.moment.set(900);
    assert!(rt; answers(&mut post, b"---------"));
    assert!(rt; post.network().waits.as_slice() == [39; 8].as_slice());
    Ok(())
}

/// A wait that begins later than the last quiet moment ends 49 milliseconds after it; one that begins from 40 on is 8 at
/// most, and ends after 50.
#[test]
fn waits_little_where_a_quiet_moment_is_near(rt: HostRuntime) -> Result<(), Fail> {
    for (passed, wait) in [(5, 24), (30, 19), (39, 10), (40, 8), (43, 7), (49, 1)] {
        let mut post = post_of_two(rt.alloc(), &[], FakeClock::new(1_000, passed))?;
        assert!(rt; answers(&mut post, b"--"));
        assert!(rt; post.network().waits.as_slice() == [wait].as_slice());
    }
    Ok(())
}

/// A port that no socket has.
fn free_port(net: &impl Net) -> io::Result<u16> {
    let socket = UdpSocket::bind(net, SocketAddr::from((Ipv4Addr::LOCALHOST, 0)))?;
    Ok(socket.local_addr()?.port())
}

/// The next arrival that is no quiet moment, of the next eight.
fn next_datagram<N: Network, C: Clock>(
    post: &mut UdpPost<N, C>,
    into: &mut [u8],
) -> Option<Arrival> {
    for _ in 0..8 {
        match post.next(into) {
            Ok(Arrival::Quiet { .. }) => {}
            Ok(arrival) => return Some(arrival),
            Err(_) => return None,
        }
    }
    None
}

/// Binds a broker to a port that no socket has; a second binding of it fails. Where it is hosted, so does that of
/// another broker to this port.
fn bind_one<N: Network, C: Clock>(
    rt: &impl Abort,
    post: &mut UdpPost<N, C>,
    broker: u16,
    address: &[u8],
    here: bool,
) {
    assert!(rt; post.bind(broker, address, here) == Ok(()));
    assert!(rt; post.bind(broker, address, here) == Err(PostFault::Failed));
    if here {
        assert!(rt; post.bind(9, address, here) == Err(PostFault::Failed));
        let said = post.last_error().map(|s| s.error.kind());
        assert!(rt; said == Some(ErrorKind::AddrInUse));
    }
}

/// Binds two brokers that are hosted and one that is not.
fn bind_three<R: Abort + Net, N: Network, C: Clock>(
    rt: &R,
    alloc: Global,
    post: &mut UdpPost<N, C>,
) -> Result<(), Fail> {
    for (broker, here) in [(3, true), (5, true), (7, false)] {
        let text = format!(in alloc; "127.0.0.001:{}", free_port(rt)?)?;
        bind_one(rt, post, broker, text.as_bytes(), here);
    }
    Ok(())
}

/// Carries so many bytes from one broker to another.
fn carry_one<N: Network, C: Clock>(
    rt: &impl Abort,
    alloc: Global,
    post: &mut UdpPost<N, C>,
    from: u16,
    to: u16,
    size: usize,
) -> Result<(), Fail> {
    let mut room = vec![in alloc; 0u8; 65_535]?;
    let sent = vec![in alloc; 7u8; size]?;
    assert!(rt; post.offer(from, to, &sent) == Ok(()));
    let came = next_datagram(post, &mut room);
    assert!(rt;
        matches!(
            came,
            Some(Arrival::Datagram { at, len, moment })
                if at == to && len == size && moment > 1_600_000_000_000
        )
    );
    assert!(rt; room.starts_with(&sent));
    Ok(())
}

/// Nothing comes for three calls.
fn stays_quiet<N: Network, C: Clock>(
    rt: &impl Abort,
    alloc: Global,
    post: &mut UdpPost<N, C>,
) -> Result<(), Fail> {
    let mut room = vec![in alloc; 0u8; 65_535]?;
    for _ in 0..3 {
        assert!(rt; matches!(post.next(&mut room), Ok(Arrival::Quiet { .. })));
    }
    Ok(())
}

/// Two hosted brokers send to each other over the loopback, and one to itself, up to the longest datagrams that there
/// are. An address that another socket has is a failure, and so are a second binding and a text that is no address.
#[test]
fn carries_datagrams(rt: HostRuntime) -> Result<(), Fail> {
    let mut post = UdpPost::new(rt.alloc(), UdpNetwork::new(rt.alloc(), &rt), &rt);
    bind_three(&rt, rt.alloc(), &mut post)?;
    assert!(rt; post.bind(9, b"localhost:7401", true) == Err(PostFault::Failed));
    for (from, to, size) in [(3, 5, 5), (5, 3, 16_384), (3, 3, 65_507)] {
        carry_one(&rt, rt.alloc(), &mut post, from, to, size)?;
    }
    assert!(rt; post.offer(3, 7, b"lost on the way") == Ok(()));
    stays_quiet(&rt, rt.alloc(), &mut post)?;
    for (from, to) in [(3, 4), (7, 3)] {
        assert!(rt; post.offer(from, to, b"x") == Err(PostFault::Failed));
    }
    assert!(rt; post.lost() == 2);
    Ok(())
}
