// What a world in memory holds.
ghost use Rattle.std.specs.Prelude.{◌≡◌, ◌<◌, ◌++◌, [], IfOk, OnOk, OnErr, drop};
ghost use Rattle.std.specs.Map.{keys_of, lookup};
ghost use Rattle.std.specs.Option.{option_copied};
ghost use Rattle.std.specs.Str.{bytes_eq};
ghost use Rattle.box_world.specs.Calls.{IsFitting, IsOpening, IsReading, IsDoing, IsShutting, IsStatus, IsValuing};
ghost use Rattle.box_world.specs.MemoryChanges.{files_made, fed_made, left_by, stream_read, with_end, with_open};
ghost use Rattle.box_world.specs.MemoryChanges.{with_put, with_read, with_read_from, with_shut};
ghost use Rattle.box_world.specs.MemoryNumbers.{GivesNext};
ghost use Rattle.box_world.specs.MemoryReplies as spec;
ghost use Rattle.box_world.specs.MemoryReplies.{next_of, output_of, plain_reply};
ghost use Rattle.box_world.specs.MemoryState.{nothing};
ghost use Rattle.box_world.specs.MemoryTexts.{with_text};

use super::texts::{Growing, Texts};
use crate::ask::{Mode, Reply, Request};
use awk_text::Memory;
use awk_text::octets::Octets;
use std::alloc::Global;
use std::collections::BTreeMap;
use std::marker::Model;

/// What a command prints, and its exit status, from 0 to 256.
#[derive(Drop)]
struct Command {
    output: Octets,
    status: i64,
}

impl Model for Command {
    ghost use Rattle.box_world.specs.Calls.{IsStatus};
    ghost use Rattle.box_world.specs.MemoryState.{Behavior};

    ghost Value = { Behavior };

    ghost view = { λ c. record { output = c.output; status = c.status } };

    ghost invariant = { λ c. IsStatus c.status };
}

impl Command {
    fn output(&self) -> &[u8]
        ensures { result.now ≡ self.now.output }
    {
        self.output.bytes()
    }

    fn status(&self) -> i64
        ensures status { result ≡ self.now.status }
        ensures valid { IsStatus result }
    {
        self.status
    }
}

/// An open stream: how it was opened, on what, and how many bytes were read of it.
#[derive(Drop)]
pub struct MemoryStream {
    pub mode: Mode,
    pub text: Octets,
    pub read: usize,
}

impl MemoryStream {
    fn advance(&mut self, count: usize)
        ensures { self.new ≡ stream_read count self.old }
    {
        self.read = self.read.saturating_add(count);
    }
}

fn status_of(commands: &Texts<Command>, text: &[u8]) -> i64
    ensures status { result ≡ spec.status_of text.now commands.now.pairs }
    ensures valid { IsStatus result }
{
    match commands.get(text) {
        Some(command) => command.status(),
        None => 127,
    }
}

fn output_of<'a>(commands: &'a Texts<Command>, text: &[u8]) -> &'a [u8]
    ensures { result.now ≡ output_of text.now commands.now.pairs }
{
    match commands.get(text) {
        Some(command) => command.output(),
        None => &[],
    }
}

/// Adds what the command prints. `Memory` changes nothing.
fn run(commands: &Texts<Command>, text: &[u8], output: &mut Vec<u8>) -> Result<(), Memory>
    ensures ok { OnOk result (output.new.items ≡ output.old.items ++ output_of text.now commands.now.pairs) }
    ensures err { OnErr result (output.new.items ≡ output.old.items) }
{
    output.extend_from_slice(output_of(commands, text))
}

/// The next bytes of a text of which so many were read.
fn read_on(alloc: Global, text: &[u8], read: usize, chunk: usize) -> Result<Reply, Memory>
    requires { 0 < chunk }
    ensures reply { IfOk result (λ r. r ≡ next_of chunk (drop read text.now)) }
    ensures fits { IfOk result IsReading }
{
    let unread = &text[read.min(text.len())..];
    if unread.is_empty() {
        return Ok(Reply::End);
    }
    let bytes = Vec::from_slice(alloc, &unread[..unread.len().min(chunk)])?;
    Ok(Reply::Bytes(Octets::new(bytes)))
}

/// Makes what an opening makes. There is room for it.
fn make(
    files: &mut Texts<Growing>,
    fed: &mut Texts<Growing>,
    alloc: Global,
    mode: Mode,
    text: Vec<u8>,
)
    requires files { 0 < files.old.room }
    requires fed { 0 < fed.old.room }
    ensures files { files.new.pairs ≡ files_made mode text.items files.old.pairs }
    ensures fed { fed.new.pairs ≡ fed_made mode text.items fed.old.pairs }
{
    match mode {
        Mode::Read | Mode::RunIn => {}
        Mode::Write => files.put(text, Growing::new(alloc)).unwrap(),
        Mode::Append => files.put_new(alloc, text),
        Mode::RunOut => fed.put_new(alloc, text),
    }
}

/// What a world in memory holds: what was put, the open streams, and what was written.
#[derive(Drop)]
pub struct MemoryStore {
    alloc: Global,
    commands: Texts<Command>,
    files: Texts<Growing>,
    environment: Texts<Octets>,
    input: Octets,
    read: usize,
    chunk: usize,
    // The open streams by their numbers, which ascend in order of opening.
    streams: BTreeMap<u32, MemoryStream>,
    fed: Texts<Growing>,
    output: Vec<u8>,
    errors: Vec<u8>,
    // 2^32 where no number is left.
    next: u64,
}

impl Model for MemoryStore {
    ghost use Rattle.std.specs.Prelude.{◌<◌};
    ghost use Rattle.std.specs.Map.{keys_of};
    ghost use Rattle.box_world.specs.MemoryNumbers.{IsNumbered};
    ghost use Rattle.box_world.specs.MemoryState.{Contents};

    ghost Value = { Contents };

    ghost view = { λ s. record {
      commands = s.commands.pairs;
      files = s.files.pairs;
      environment = s.environment.pairs;
      input = s.input;
      read = s.read;
      chunk = s.chunk;
      streams = s.streams.entries;
      fed = s.fed.pairs;
      output = s.output.items;
      errors = s.errors.items;
      next = s.next;
    } };

    ghost invariant = { λ s. IsNumbered s.next (keys_of s.streams.entries) × (0 < s.chunk) };
}

impl MemoryStore {
    pub fn new(alloc: Global) -> MemoryStore
        ensures { result ≡ nothing }
    {
        MemoryStore {
            alloc,
            commands: Texts::new(alloc),
            files: Texts::new(alloc),
            environment: Texts::new(alloc),
            input: Octets::new(Vec::new(alloc)),
            read: 0,
            chunk: 8192,
            streams: BTreeMap::new(alloc),
            fed: Texts::new(alloc),
            output: Vec::new(alloc),
            errors: Vec::new(alloc),
            next: 3,
        }
    }

    pub fn put_command(&mut self, text: Octets, output: Octets, status: i64) -> Result<(), Memory>
        requires { IsStatus status }
        ensures ok { OnOk result (self.new ≡ record self.old {
          commands = with_text text (record { output = output; status = status }) self.old.commands;
        }) }
        ensures err { OnErr result (self.new ≡ self.old) }
    {
        self.commands
            .put(text.into_bytes(self.alloc)?, Command { output, status })
    }

    pub fn put_file(&mut self, text: Octets, bytes: Octets) -> Result<(), Memory>
        ensures ok { OnOk result (self.new ≡ record self.old { files = with_text text bytes self.old.files }) }
        ensures err { OnErr result (self.new ≡ self.old) }
    {
        let bytes = bytes.into_bytes(self.alloc)?;
        self.files
            .put(text.into_bytes(self.alloc)?, Growing::of(bytes))
    }

    pub fn put_env(&mut self, name: Octets, value: Octets) -> Result<(), Memory>
        ensures ok { OnOk result
            (self.new ≡ record self.old { environment = with_text name value self.old.environment }) }
        ensures err { OnErr result (self.new ≡ self.old) }
    {
        self.environment.put(name.into_bytes(self.alloc)?, value)
    }

    pub fn put_input(&mut self, bytes: Octets)
        ensures { self.new ≡ record self.old { input = bytes; read = 0 } }
    {
        self.input = bytes;
        self.read = 0;
    }

    pub fn set_chunk(&mut self, n: usize)
        requires { 0 < n }
        ensures { self.new ≡ record self.old { chunk = n } }
    {
        self.chunk = n;
    }

    pub fn file(&self, text: &[u8]) -> Option<&[u8]>
        ensures { option_copied result ≡ lookup (bytes_eq text.now) self.now.files }
    {
        match self.files.get(text) {
            Some(growing) => Some(growing.bytes()),
            None => None,
        }
    }

    pub fn fed(&self, text: &[u8]) -> Option<&[u8]>
        ensures { option_copied result ≡ lookup (bytes_eq text.now) self.now.fed }
    {
        match self.fed.get(text) {
            Some(growing) => Some(growing.bytes()),
            None => None,
        }
    }

    pub fn output(&self) -> &[u8]
        ensures { result.now ≡ self.now.output }
    {
        self.output.as_slice()
    }

    pub fn errors(&self) -> &[u8]
        ensures { result.now ≡ self.now.errors }
    {
        self.errors.as_slice()
    }

    fn opening(&self, mode: Mode, text: &[u8]) -> Reply
        ensures reply { result ≡ spec.opening mode text.now self.now }
        ensures fits { IsOpening (keys_of self.now.streams) result }
        ensures next { GivesNext self.now.next result }
    {
        if mode == Mode::Read && self.files.get(text).is_none() {
            return Reply::Failed;
        }
        match u32::try_from(self.next) {
            Ok(number) => Reply::Opened(number),
            Err(_) => Reply::Failed,
        }
    }

    fn source(&self, stream: &MemoryStream) -> Option<&[u8]>
        ensures { option_copied result ≡ spec.source stream.now.mode stream.now.text self.now }
    {
        match stream.mode {
            Mode::Read => Some(self.file(stream.text.bytes()).unwrap_or(&[])),
            Mode::RunIn => Some(output_of(&self.commands, stream.text.bytes())),
            Mode::Write | Mode::Append | Mode::RunOut => None,
        }
    }

    fn reading_of(&self, stream: &MemoryStream) -> Result<Reply, Memory>
        ensures reply { IfOk result (λ r. r ≡ spec.reading_of stream.now self.now) }
        ensures fits { IfOk result IsReading }
    {
        match self.source(stream) {
            Some(text) => read_on(self.alloc, text, stream.read, self.chunk),
            None => Ok(Reply::Failed),
        }
    }

    fn reading_from(&self, number: u32) -> Result<Reply, Memory>
        ensures reply { IfOk result (λ r. r ≡ spec.reading_from number self.now) }
        ensures fits { IfOk result IsReading }
    {
        match self.streams.get(&number) {
            Some(stream) => self.reading_of(stream),
            None => Ok(Reply::Failed),
        }
    }

    fn reading(&self, number: u32) -> Result<Reply, Memory>
        ensures reply { IfOk result (λ r. r ≡ spec.reading number self.now) }
        ensures fits { IfOk result IsReading }
    {
        match number {
            0 => read_on(self.alloc, self.input.bytes(), self.read, self.chunk),
            _ => self.reading_from(number),
        }
    }

    fn is_written(&self, number: u32) -> bool
        ensures { result ≡ spec.is_written_in number self.now.streams }
    {
        match self.streams.get(&number) {
            Some(stream) => match stream.mode {
                Mode::Read | Mode::RunIn => false,
                Mode::Write | Mode::Append | Mode::RunOut => true,
            },
            None => false,
        }
    }

    fn putting(&self, number: u32) -> Reply
        ensures reply { result ≡ spec.putting number self.now }
        ensures fits { IsDoing result }
    {
        match number {
            0 => Reply::Failed,
            1 | 2 => Reply::Done,
            _ if self.is_written(number) => Reply::Done,
            _ => Reply::Failed,
        }
    }

    fn shutting(&self, number: u32) -> Reply
        ensures reply { result ≡ spec.shutting number self.now }
        ensures fits { IsShutting result }
    {
        match self.streams.get(&number) {
            Some(stream) => match stream.mode {
                Mode::RunIn | Mode::RunOut => {
                    Reply::Status(status_of(&self.commands, stream.text.bytes()))
                }
                Mode::Read | Mode::Write | Mode::Append => Reply::Done,
            },
            None => Reply::Done,
        }
    }

    fn value_of(&self, name: &[u8]) -> Result<Reply, Memory>
        ensures reply { IfOk result (λ r. r ≡ spec.value_of name.now self.now) }
        ensures fits { IfOk result IsValuing }
    {
        match self.environment.get(name) {
            Some(value) => Ok(Reply::Value(value.copy(self.alloc)?)),
            None => Ok(Reply::Failed),
        }
    }

    /// The reply to a request that is not made to fail.
    pub fn reply_to(&self, request: &Request) -> Result<Reply, Memory>
        ensures reply { IfOk result (λ r. r ≡ plain_reply self.now request.now) }
        ensures fits { IfOk result (IsFitting (keys_of self.now.streams) request.now) }
        ensures next { IfOk result (GivesNext self.now.next) }
    {
        match request {
            Request::Open(mode, text) => Ok(self.opening(*mode, text.bytes())),
            Request::Next(number) => self.reading(*number),
            Request::Put(number, _) => Ok(self.putting(*number)),
            Request::Shut(number) => Ok(self.shutting(*number)),
            Request::System(text) => Ok(Reply::Status(status_of(&self.commands, text.bytes()))),
            Request::Env(name) => self.value_of(name.bytes()),
            Request::Assign(_, _) => Ok(Reply::Done),
        }
    }

    fn open(&mut self, number: u32, mode: Mode, text: &Octets) -> Result<(), Memory>
        requires { number ≡ self.old.next }
        ensures ok { OnOk result (self.new ≡ with_open mode number text.now self.old) }
        ensures err { OnErr result (self.new ≡ self.old) }
    {
        let name = Vec::from_slice(self.alloc, text.bytes())?;
        let opened = text.copy(self.alloc)?;
        self.files.make_room()?;
        self.fed.make_room()?;
        let stream = MemoryStream {
            mode,
            text: opened,
            read: 0,
        };
        self.streams.insert(number, stream)?;
        make(&mut self.files, &mut self.fed, self.alloc, mode, name);
        self.next += 1;
        Ok(())
    }

    fn advance_stream(&mut self, number: u32, count: usize)
        ensures { self.new ≡ with_read_from number count self.old }
    {
        match self.streams.get_mut(&number) {
            Some(stream) => stream.advance(count),
            None => {}
        }
    }

    fn advance(&mut self, number: u32, count: usize)
        ensures { self.new ≡ with_read number count self.old }
    {
        match number {
            0 => self.read = self.read.saturating_add(count),
            _ => self.advance_stream(number, count),
        }
    }

    fn put(&mut self, number: u32, bytes: &[u8]) -> Result<(), Memory>
        ensures ok { OnOk result (self.new ≡ with_put number bytes.now self.old) }
        ensures err { OnErr result (self.new ≡ self.old) }
    {
        match number {
            1 => self.output.extend_from_slice(bytes),
            2 => self.errors.extend_from_slice(bytes),
            _ => match self.streams.get(&number) {
                Some(stream) => match stream.mode {
                    Mode::Write | Mode::Append => self.files.add(stream.text.bytes(), bytes),
                    Mode::RunOut => self.fed.add(stream.text.bytes(), bytes),
                    Mode::Read | Mode::RunIn => Ok(()),
                },
                None => Ok(()),
            },
        }
    }

    /// A command that was written to prints once its input has ended. `Memory` changes nothing.
    fn end(&mut self, number: u32) -> Result<(), Memory>
        ensures ok { OnOk result (self.new ≡ with_end number self.old) }
        ensures err { OnErr result (self.new ≡ self.old) }
    {
        match self.streams.get(&number) {
            Some(stream) => match stream.mode {
                Mode::RunOut => run(&self.commands, stream.text.bytes(), &mut self.output),
                Mode::Read | Mode::Write | Mode::Append | Mode::RunIn => Ok(()),
            },
            None => Ok(()),
        }
    }

    fn shut(&mut self, number: u32)
        ensures { self.new ≡ with_shut number self.old }
    {
        self.streams.remove(&number);
    }

    /// Does what the reply says of the request. `Memory` changes nothing.
    pub fn leave(&mut self, request: &Request, reply: &Reply) -> Result<(), Memory>
        requires { GivesNext self.old.next reply.now }
        ensures ok { OnOk result (self.new ≡ left_by request.now reply.now self.old) }
        ensures err { OnErr result (self.new ≡ self.old) }
    {
        match (request, reply) {
            (Request::Open(mode, text), Reply::Opened(number)) => self.open(*number, *mode, text),
            (Request::Next(number), Reply::Bytes(bytes)) => {
                self.advance(*number, bytes.bytes().len());
                Ok(())
            }
            (Request::Put(number, bytes), Reply::Done) => self.put(*number, bytes.bytes()),
            (Request::Shut(number), Reply::Failed) => {
                self.shut(*number);
                Ok(())
            }
            (Request::Shut(number), _) => {
                self.end(*number)?;
                self.shut(*number);
                Ok(())
            }
            (Request::System(text), Reply::Status(_)) => {
                run(&self.commands, text.bytes(), &mut self.output)
            }
            _ => Ok(()),
        }
    }
}
