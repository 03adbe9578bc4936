// A request that is taken from a stream.

ghost use Rattle.std.specs.Prelude.{◌≡◌, ◌≢◌, ◌+◌, ◌-◌, ◌<◌, ◌≤◌, ℕ, List, Bool, true, false, Some, None, Ok, Err, [], ◌++◌, length, take, drop, IfOk, IfErr};
ghost use Rattle.http_framing.specs.Heads.{IsRead};
ghost use Rattle.http_stream.specs.Intakes.{Added, BodyAwaited, BodyStep, HeadEnded, IsCaused, IsHeaded, Shed, Stops, Taken, is_due};

use crate::intake::Intake;
use crate::stop::Stop;
use edge_io::Source;
use http_framing::{FrameFault, Head, read_head};
use http_messages::Request;
use std::alloc::{AllocError, Global};

// A head that passes its tests: where it ends, the length of its body, and whether what asks for the body is due.
#[derive(Drop)]
pub(crate) struct Headed {
    pub(crate) head: Head,
    pub(crate) end: usize,
    pub(crate) count: usize,
    pub(crate) due: bool,
}

// A request to be asked; whether the stream ends behind it.
#[derive(Drop)]
pub(crate) struct Asked {
    pub(crate) request: Request,
    pub(crate) closes: bool,
}

// Whether what asks for the body is due behind a head that ends there.
fn is_due(head: &Head, end: usize, room: usize) -> bool
    ensures { result ≡ is_due room end head.now }
{
    head.asks_continue() && end < room
}

impl Intake {
    // The tests of a head.
    fn test_head(&self, head: Head, end: usize) -> Result<Headed, Stop>
        requires ended { HeadEnded self.now.bytes.items end }
        requires reads { IsRead (take end self.now.bytes.items) (Some head) }
        ensures headed { IfOk result (λ headed. IsHeaded self.now.room self.now.bytes.items headed.head headed.end headed.count headed.due) }
        ensures stops { IfErr result (λ stop. Stops self.now.room false self.now.bytes.items stop false) }
        ensures other { IfErr result (λ stop. stop ≢ Stop.ReadFault) }
    {
        match head.body_length() {
            Ok(count) => {
                let due = is_due(&head, end, self.room);
                Ok(Headed {
                    head,
                    end,
                    count: count as usize,
                    due,
                })
            }
            Err(fault) => Err(Stop::Refused(fault)),
        }
    }

    // The tests of what was read up to there.
    fn test_found(&self, found: Option<Head>, end: usize) -> Result<Headed, Stop>
        requires ended { HeadEnded self.now.bytes.items end }
        requires reads { IsRead (take end self.now.bytes.items) found }
        ensures headed { IfOk result (λ headed. IsHeaded self.now.room self.now.bytes.items headed.head headed.end headed.count headed.due) }
        ensures stops { IfErr result (λ stop. Stops self.now.room false self.now.bytes.items stop false) }
        ensures other { IfErr result (λ stop. stop ≢ Stop.ReadFault) }
    {
        match found {
            Some(head) => self.test_head(head, end),
            None => Err(Stop::Refused(FrameFault::BadHead)),
        }
    }

    // Reads the head that ends there, and tests it.
    fn read_headed(&self, alloc: Global, end: usize) -> Result<Headed, Stop>
        requires { HeadEnded self.now.bytes.items end }
        ensures headed { IfOk result (λ headed. IsHeaded self.now.room self.now.bytes.items headed.head headed.end headed.count headed.due) }
        ensures stops { IfErr result (λ stop. Stops self.now.room false self.now.bytes.items stop false) }
        ensures other { IfErr result (λ stop. stop ≢ Stop.ReadFault) }
    {
        match read_head(alloc, &self.bytes[..end]) {
            Ok(found) => self.test_found(found, end),
            Err(_) => Err(Stop::Memory),
        }
    }

    // Reads the head of the next request.
    pub(crate) fn next_head<S: Source>(
        &mut self,
        alloc: Global,
        source: &mut S,
        chunk: &mut [u8],
    ) -> Result<Headed, Stop>
        requires { 0 < length chunk.old }
        ensures came { (came : List ℕ) × Added (S.given source.old) (S.given source.new) came × Shed self.old.room (self.old.bytes.items ++ came) self.new.room self.new.bytes.items × BodyStep self.new.room self.new.bytes.items (S.left source.new) result false }
        ensures headed { IfOk result (λ headed. IsHeaded self.new.room self.new.bytes.items headed.head headed.end headed.count headed.due) }
        ensures later { S.faults source.old ≤ S.faults source.new }
        ensures fault { IfErr result (λ stop. IsCaused (S.faults source.old) (S.faults source.new) stop) }
    {
        match self.await_head(source, chunk) {
            Ok(end) => self.read_headed(alloc, end),
            Err(stop) => Err(stop),
        }
    }

    // Reads once where the body isn't there.
    fn fill_body<S: Source>(
        &mut self,
        source: &mut S,
        chunk: &mut [u8],
        headed: &Headed,
    ) -> Result<(), Stop>
        requires head { IsHeaded self.old.room self.old.bytes.items headed.now.head headed.now.end headed.now.count headed.now.due }
        requires short { length self.old.bytes.items < headed.now.end + headed.now.count }
        requires some { 0 < length chunk.old }
        ensures came { (came : List ℕ) × Added (S.given source.old) (S.given source.new) came × (self.new.bytes.items ≡ self.old.bytes.items ++ came) × BodyStep self.new.room self.new.bytes.items (S.left source.new) result headed.now.due }
        ensures same { self.new.room ≡ self.old.room }
        ensures less { IfOk result (λ _. length self.old.bytes.items < length self.new.bytes.items) }
        ensures later { S.faults source.old ≤ S.faults source.new }
        ensures fault { IfErr result (λ stop. IsCaused (S.faults source.old) (S.faults source.new) stop) }
    {
        if self.bytes.len() >= self.room {
            return Err(Stop::Refused(FrameFault::StreamTooLarge));
        }
        match self.fill(source, chunk) {
            Ok(0) => Err(Stop::Refused(FrameFault::Truncated)),
            Ok(_) => Ok(()),
            Err(stop) => Err(stop),
        }
    }

    // Reads until the body is there.
    fn await_body<S: Source>(
        &mut self,
        source: &mut S,
        chunk: &mut [u8],
        headed: &Headed,
    ) -> Result<(), Stop>
        requires head { IsHeaded self.old.room self.old.bytes.items headed.now.head headed.now.end headed.now.count headed.now.due }
        requires some { 0 < length chunk.old }
        ensures came { (came : List ℕ) × Added (S.given source.old) (S.given source.new) came × (self.new.bytes.items ≡ self.old.bytes.items ++ came) × BodyAwaited self.new.room self.new.bytes.items (S.left source.new) result headed.now.due (headed.now.end + headed.now.count) }
        ensures same { self.new.room ≡ self.old.room }
        ensures later { S.faults source.old ≤ S.faults source.new }
        ensures fault { IfErr result (λ stop. IsCaused (S.faults source.old) (S.faults source.new) stop) }
    {
        while self.bytes.len() - headed.end < headed.count {
            match self.fill_body(source, chunk, headed) {
                Ok(()) => (),
                Err(stop) => return Err(stop),
            }
        }
        Ok(())
    }

    // A copy of the bytes of a body.
    fn body_at(&self, alloc: Global, end: usize, count: usize) -> Result<Vec<u8>, AllocError>
        requires { end + count ≤ length self.now.bytes.items }
        ensures { IfOk result (λ body. body.items ≡ take count (drop end self.now.bytes.items)) }
    {
        self.bytes[end..end + count].to_vec(alloc)
    }

    // Takes the request whose body is there.
    fn take_request(&mut self, alloc: Global, headed: Headed) -> Result<Asked, Stop>
        requires head { IsHeaded self.old.room self.old.bytes.items headed.head headed.end headed.count headed.due }
        requires there { headed.end + headed.count ≤ length self.old.bytes.items }
        ensures taken { IfOk result (λ asked. Taken self.old.room self.old.bytes.items asked.request headed.due asked.closes self.new.room self.new.bytes.items) }
        ensures memory { IfErr result (λ stop. stop ≡ Stop.Memory) }
    {
        let Headed {
            head,
            end,
            count,
            due: _,
        } = headed;
        let closes = head.ends_stream();
        match self.body_at(alloc, end, count) {
            Ok(body) => {
                self.drop_front(end + count);
                Ok(Asked {
                    request: head.into_request(body),
                    closes,
                })
            }
            Err(_) => Err(Stop::Memory),
        }
    }

    // Reads the body of a request, and takes it.
    pub(crate) fn next_body<S: Source>(
        &mut self,
        alloc: Global,
        source: &mut S,
        chunk: &mut [u8],
        headed: Headed,
    ) -> Result<Asked, Stop>
        requires head { IsHeaded self.old.room self.old.bytes.items headed.head headed.end headed.count headed.due }
        requires some { 0 < length chunk.old }
        ensures came { (came : List ℕ) × Added (S.given source.old) (S.given source.new) came × IfOk result (λ asked. Taken self.old.room (self.old.bytes.items ++ came) asked.request headed.due asked.closes self.new.room self.new.bytes.items) × BodyStep self.old.room (self.old.bytes.items ++ came) (S.left source.new) result headed.due }
        ensures later { S.faults source.old ≤ S.faults source.new }
        ensures fault { IfErr result (λ stop. IsCaused (S.faults source.old) (S.faults source.new) stop) }
    {
        match self.await_body(source, chunk, &headed) {
            Ok(()) => self.take_request(alloc, headed),
            Err(stop) => Err(stop),
        }
    }
}
