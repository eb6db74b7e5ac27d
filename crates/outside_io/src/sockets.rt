ghost use Rattle.std.specs.Prelude.{◌≡◌, ◌≢◌, ◌<◌, ◌≤◌, [], true, false, length, take, IfOk, IfSome, MatchResult, OnErr, OnOk};
ghost use Rattle.std.specs.Io.{ReadsAtMost};
ghost use Rattle.outside_io.specs.Causes.{HasCause, one_more};
ghost use Rattle.outside_io.specs.Net.{AreCounts, IsAddress, Talks, hung_up, is_end, listening, taken, with_call_faults};
ghost use Rattle.outside_io.specs.System.{socket_seen};

use crate::system::read_once;
use crate::{Failed, FaultCount, Net};
use std::io::{ErrorKind, Read, Write};
use std::marker::Model;
use std::net;
use std::net::{OpenListener, OpenStream, Shutdown, TcpListener, TcpStream};
use std::time::Duration;

/// Connections over TCP, one at a time. It does not tell what is said; it counts the calls that failed.
#[derive(Drop)]
pub struct TcpNet<'a, R: net::Net> {
    rt: &'a R,
    listener: Option<R::Listener>,
    stream: Option<R::Stream>,
    call_faults: FaultCount,
    line_faults: FaultCount,
}

impl<'a, R: net::Net> Model for TcpNet<'a, R> {
    ghost use Rattle.std.specs.Prelude.{is_some};
    ghost use Rattle.outside_io.specs.Causes.{IsCount};
    ghost use Rattle.outside_io.specs.System.{SocketNet};

    ghost Value = { SocketNet };

    ghost view = { λ n. record {
      listens = is_some n.listener;
      stands = is_some n.stream;
      call_faults = n.call_faults;
      line_faults = n.line_faults;
    } };

    ghost invariant = { λ n. IsCount n.call_faults × IsCount n.line_faults };
}

impl<'a, R: net::Net> TcpNet<'a, R> {
    /// The sockets of this runtime: none is open, and no fault is counted yet.
    pub fn over(rt: &'a R) -> TcpNet<'a, R>
        ensures { result ≡ record { listens = false; stands = false; call_faults = 0; line_faults = 0 } }
    {
        TcpNet {
            rt,
            listener: None,
            stream: None,
            call_faults: FaultCount::new(),
            line_faults: FaultCount::new(),
        }
    }

    /// Keeps the connection that was made, or counts that none was.
    fn keep(&mut self, made: Option<R::Stream>) -> Result<(), Failed>
        ensures { MatchResult result
            (λ _. self.new ≡ record self.old { stands = true })
            (λ _. self.new ≡ record self.old { stands = false; call_faults = one_more self.old.call_faults }) }
    {
        match made {
            Some(stream) => {
                // Small answers go out at once. Where the system cannot do that, they go out all the same.
                let _set = stream.set_nodelay(true);
                self.stream = Some(stream);
                Ok(())
            }
            None => {
                self.stream = None;
                Err(self.call_faults.count_fault())
            }
        }
    }
}

impl<'a, R: net::Net> Net for TcpNet<'a, R> {
    ghost seen = { socket_seen };

    fn listen(&mut self, address: &str) -> Result<(), Failed>
        requires { IsAddress address.now }
        ensures after { MatchResult result
            (λ _. self.new ≡ record self.old { listens = true })
            (λ _. self.new ≡ record self.old { call_faults = one_more self.old.call_faults }) }
        ensures listens { OnOk result (socket_seen self.new ≡ listening address.now (socket_seen self.old)) }
        ensures failed { OnErr result (socket_seen self.new ≡ with_call_faults self.new.call_faults (socket_seen self.old)) }
        ensures counts { AreCounts (socket_seen self.new) }
        ensures cause { HasCause self.old.call_faults self.new.call_faults result }
    {
        match TcpListener::bind(self.rt, address) {
            Ok(listener) => {
                self.listener = Some(listener);
                Ok(())
            }
            Err(_) => Err(self.call_faults.count_fault()),
        }
    }

    fn accept(&mut self) -> Result<(), Failed>
        requires { self.old.listens ≡ true }
        ensures after { MatchResult result
            (λ _. self.new ≡ record self.old { stands = true })
            (λ _. self.new ≡ record self.old { stands = false; call_faults = one_more self.old.call_faults }) }
        ensures takes { OnOk result (socket_seen self.new ≡ taken [] (socket_seen self.old)) }
        ensures came { OnOk result (IfSome (socket_seen self.old).told (λ net. net.waiting ≢ [])) }
        ensures failed { OnErr result (socket_seen self.new ≡ hung_up (with_call_faults self.new.call_faults (socket_seen self.old))) }
        ensures counts { AreCounts (socket_seen self.new) }
        ensures cause { HasCause self.old.call_faults self.new.call_faults result }
    {
        self.hang_up();
        let made = match &self.listener {
            Some(listener) => accept_next(listener),
            None => None,
        };
        self.keep(made)
    }

    fn dial(&mut self, address: &str) -> Result<(), Failed>
        requires { IsAddress address.now }
        ensures after { MatchResult result
            (λ _. self.new ≡ record self.old { stands = true })
            (λ _. self.new ≡ record self.old { stands = false; call_faults = one_more self.old.call_faults }) }
        ensures takes { OnOk result (socket_seen self.new ≡ taken address.now (socket_seen self.old)) }
        ensures came { OnOk result (IfSome (socket_seen self.old).told (λ net. net.waiting ≢ [])) }
        ensures failed { OnErr result (socket_seen self.new ≡ hung_up (with_call_faults self.new.call_faults (socket_seen self.old))) }
        ensures counts { AreCounts (socket_seen self.new) }
        ensures cause { HasCause self.old.call_faults self.new.call_faults result }
    {
        self.hang_up();
        let made = TcpStream::connect(self.rt, address).ok();
        self.keep(made)
    }

    #[tactic(auto, using(crate::proofs::Untold::untold_same, crate::proofs::Untold::untold_failed))]
    fn read(&mut self, into: &mut [u8]) -> Result<usize, Failed>
        requires { self.old.stands ≡ true }
        ensures after { MatchResult result
            (λ _. self.new ≡ self.old)
            (λ _. self.new ≡ record self.old { line_faults = one_more self.old.line_faults }) }
        ensures bound { ReadsAtMost result into.new }
        ensures got { IfOk result (λ n. Talks (socket_seen self.old) (socket_seen self.new) [] (take n into.new) (is_end n into.new)) }
        ensures failed { OnErr result (Talks (socket_seen self.old) (socket_seen self.new) [] [] false) }
        ensures counts { AreCounts (socket_seen self.new) }
        ensures cause { HasCause self.old.line_faults self.new.line_faults result }
    {
        let read = match &mut self.stream {
            Some(stream) => read_once(stream, into),
            None => None,
        };
        match read {
            Some(count) => Ok(count),
            None => Err(self.line_faults.count_fault()),
        }
    }

    #[tactic(auto, using(crate::proofs::Untold::untold_same, crate::proofs::Untold::untold_failed))]
    fn write(&mut self, from: &[u8]) -> Result<usize, Failed>
        requires { self.old.stands ≡ true }
        ensures after { MatchResult result
            (λ _. self.new ≡ self.old)
            (λ _. self.new ≡ record self.old { line_faults = one_more self.old.line_faults }) }
        ensures bound { IfOk result (λ n. n ≤ length from.now) }
        ensures progress { IfOk result (λ n. 0 < length from.now → 0 < n) }
        ensures sent { IfOk result (λ n. Talks (socket_seen self.old) (socket_seen self.new) (take n from.now) [] false) }
        ensures failed { OnErr result (Talks (socket_seen self.old) (socket_seen self.new) [] [] false) }
        ensures counts { AreCounts (socket_seen self.new) }
        ensures cause { HasCause self.old.line_faults self.new.line_faults result }
    {
        let written = match &mut self.stream {
            Some(stream) => send_once(stream, from),
            None => None,
        };
        match written {
            Some(count) if count > 0 || from.is_empty() => Ok(count),
            _ => Err(self.line_faults.count_fault()),
        }
    }

    fn hang_up(&mut self)
        ensures { self.new ≡ record self.old { stands = false } }
    {
        if let Some(mut stream) = self.stream.take() {
            part(&mut stream);
        }
    }
}

/// The next connection; `None` where the call failed. A peer that went before it was taken is passed over.
fn accept_next<L: OpenListener>(listener: &L) -> Option<L::Stream> {
    for _ in 0..u64::MAX {
        match listener.accept() {
            Ok((stream, _)) => return Some(stream),
            Err(error) if is_passing(error.kind()) => {}
            Err(_) => return None,
        }
    }
    None
}

/// Whether a call that failed so is to be made again: a signal came between, or the peer that waited has gone.
fn is_passing(kind: ErrorKind) -> bool {
    matches!(kind, ErrorKind::Interrupted | ErrorKind::ConnectionAborted)
}

/// Writes, and again where a signal came between; `None` where the write failed.
fn send_once<W: Write>(writer: &mut W, from: &[u8]) -> Option<usize>
    ensures { IfSome result (λ n. n ≤ length from.now) }
{
    for _ in 0..u64::MAX {
        match writer.write(from) {
            Ok(count) => return Some(count),
            Err(error) if error.kind() == ErrorKind::Interrupted => {}
            Err(_) => return None,
        }
    }
    None
}

/// How long a peer may say nothing before its connection is closed behind the last answer, in milliseconds.
const PATIENCE: u64 = 250;

/// How many reads, and how many bytes in each, are made of a peer that goes on sending.
const LAST_READS: usize = 256;

const LAST_BYTES: usize = 16_384;

/// Tells the peer that nothing more comes, and lets it come to its end. A socket that is closed while bytes of the peer are
/// unread is reset, and the answers that were sent last may be lost with it.
fn part<S: Read + OpenStream>(stream: &mut S) {
    let patience = Some(Duration::from_millis(PATIENCE));
    if stream.shutdown(Shutdown::Write).is_err() || stream.set_read_timeout(patience).is_err() {
        return;
    }
    let mut bytes = [0; LAST_BYTES];
    for _ in 0..LAST_READS {
        match read_once(stream, &mut bytes) {
            Some(count) if count > 0 => {}
            _ => return,
        }
    }
}
