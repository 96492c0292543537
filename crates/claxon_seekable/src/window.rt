//! The bytes of a source that are held in memory.
ghost use Rattle.std.specs.Prelude.{
  ◌≡◌,
  ◌+◌,
  ◌-◌,
  ◌^◌,
  ◌<◌,
  ◌≤◌,
  IfOk,
  OnOk,
  length,
  take,
  vec_capacity,
  vec_len,
};
ghost use Rattle.claxon_seekable.specs.Source.{CountsCall, EndIsTold, ReadEnds, ReadMoves};

use crate::memory::ByteMemory;
use crate::source::CountingSource;
use claxon::{Error, Result};
use claxon_stream::NeededBytes;
use std::alloc::Global;
use std::io;
use std::io::{Read, Seek};

// How many bytes are asked for in a read.
const READ_SIZE: usize = 32 * 1024;

// Bytes of a source.
#[derive(Drop)]
pub(crate) struct Window<R> {
    source: CountingSource<R>,
    memory: ByteMemory,
    // The bytes that were read; the first `taken` of them are passed.
    bytes: Vec<u8>,
    taken: usize,
    // The position in the source of the next one.
    position: u64,
    ghost ordered: { taken ≤ vec_len bytes },
    ghost fits: { position + (vec_len bytes - taken) < 2 ^ 64 - 1 },
}

impl<R> Window<R> {
    ghost use Rattle.claxon_seekable.specs.Window.{
      IsNewWindow,
      ForgetsEnd,
      MovesTo,
      held,
      has_end,
      place,
      window_source,
    };

    // No bytes, at this position.
    pub(crate) fn new(alloc: Global, source: R, position: u64) -> Window<R>
        requires { position < u64.MAX }
        ensures { IsNewWindow source position result }
    {
        Window {
            source: CountingSource::new(source),
            memory: ByteMemory::new(alloc),
            bytes: Vec::new(alloc),
            taken: 0,
            position,
        }
    }

    // The bytes that are held.
    pub(crate) fn held(&self) -> &[u8]
        ensures { result.now ≡ held self.now }
    {
        &self.bytes.as_slice()[self.taken..]
    }

    // The position of the first of them.
    pub(crate) fn position(&self) -> u64
        ensures { result ≡ place self.now }
    {
        self.position
    }

    // Whether no byte stood after them when that was last asked.
    pub(crate) fn has_end(&self) -> bool
        ensures { result ≡ has_end self.now }
    {
        let end = self.position + self.held().len() as u64;
        self.source.ends_at(end)
    }

    // Forgets that no byte stands after them: the source may have grown since.
    pub(crate) fn forget_end(&mut self)
        ensures { ForgetsEnd self.old self.new }
    {
        self.source.forget_end();
    }

    // Moves to the position. Bytes that are held from there on are kept.
    pub(crate) fn move_to(&mut self, position: u64)
        requires { position < u64.MAX }
        ensures { MovesTo position self.old self.new }
    {
        match position.checked_sub(self.position) {
            Some(ahead) if ahead <= self.held().len() as u64 => self.taken += ahead as usize,
            _ => {
                self.bytes.clear();
                self.taken = 0;
            }
        }
        self.position = position;
    }

    pub(crate) fn into_source(self) -> R
        ensures { result ≡ window_source self }
    {
        let Window {
            source,
            memory: _,
            bytes: _,
            taken: _,
            position: _,
        } = self;
        source.into_inner()
    }
}

impl<R: Read + Seek> Window<R> {
    ghost use Rattle.claxon_seekable.specs.Window.{
      CallIsCounted,
      HasRoom,
      IsAfterHeld,
      KeepsEndTold,
      KeepsHeld,
      ReadsFrom,
      ReadsInTurn,
      ReadsMore,
      ReadsOn,
      WindowEndIsTold,
      has_end,
      held,
      place,
    };

    // The length of the source.
    pub(crate) fn length(&mut self) -> Result<u64>
        ensures keeps_held { KeepsHeld self.old self.new }
        ensures is_counted { CallIsCounted self.old result self.new }
    {
        Ok(self.source.length()?)
    }

    // Reads so many bytes from the position on, unless the source ends before.
    pub(crate) fn read_on(&mut self, needed: NeededBytes) -> Result<()>
        ensures reads_from { ReadsFrom needed.position self.old self.new }
        ensures is_full { IfOk result (λ _. ReadsMore needed.count self.new) }
        ensures is_counted { CallIsCounted self.old result self.new }
    {
        self.move_to(needed.position.min(u64::MAX - 1));
        self.fill(needed.count)
    }

    // Reads on until so many bytes are held, or the source ends.
    pub(crate) fn fill(&mut self, wanted: usize) -> Result<()>
        ensures reads_on { ReadsOn (held self.old) (held self.new) }
        ensures place { place self.new ≡ place self.old }
        ensures is_full { IfOk result (λ _. ReadsMore wanted self.new) }
        ensures in_turn { IfOk result (λ _. ReadsInTurn self.old self.new) }
        ensures is_counted { CallIsCounted self.old result self.new }
        ensures keeps_end_told { KeepsEndTold R.remaining self.old self.new }
    {
        while self.held().len() < wanted && !self.has_end() {
            self.read_more()?;
        }
        Ok(())
    }

    // Reads more bytes after those that are held, or notes that there are none.
    fn read_more(&mut self) -> Result<()>
        ensures reads_on { ReadsOn (held self.old) (held self.new) }
        ensures place { place self.new ≡ place self.old }
        ensures more { OnOk result (ReadsMore (length (held self.old) + 1) self.new) }
        ensures is_after { OnOk result (IsAfterHeld self.new) }
        ensures is_counted { CallIsCounted self.old result self.new }
        ensures end_is_told { WindowEndIsTold R.remaining self.old self.new }
    {
        self.make_room()?;
        let len = self.bytes.len();
        let end = self.position + len as u64;
        self.bytes.resize(len + READ_SIZE, 0)?;
        let read = read_after(&mut self.source, end, self.bytes.as_mut_slice(), len);
        match read {
            Ok(count) => {
                self.bytes.truncate(len + count);
                Ok(())
            }
            Err(error) => {
                self.bytes.truncate(len);
                Err(error.into())
            }
        }
    }

    // Makes room for a read after the bytes that are held, and gives up the memory of those that are passed.
    fn make_room(&mut self) -> Result<()>
        ensures keeps_held { KeepsHeld self.old self.new }
        ensures keeps_source { self.new.source ≡ self.old.source }
        ensures has_room { OnOk result (HasRoom self.new) }
        ensures is_counted { CallIsCounted self.old result self.new }
    {
        let held = self.held().len();
        if self.taken == 0 && held < self.bytes.capacity().saturating_sub(READ_SIZE) {
            return Ok(());
        }
        // Twice as many, so that the time to copy them is linear.
        let wanted = held.saturating_mul(2).saturating_add(READ_SIZE);
        let Some(mut bytes) = self.memory.request(wanted) else {
            return Err(Error::OutOfMemory);
        };
        bytes.extend_from_slice(self.held())?;
        self.bytes = bytes;
        self.taken = 0;
        Ok(())
    }
}

// One read of the bytes at the position into the buffer after its first bytes.
fn read_after<R: Read + Seek>(
    source: &mut CountingSource<R>,
    position: u64,
    buffer: &mut [u8],
    len: usize,
) -> io::Result<usize>
    requires before_end { position < u64.MAX }
    requires has_room { len < length buffer.old }
    ensures front { take len buffer.new ≡ take len buffer.old }
    ensures fits { IfOk result (λ count. (len + count ≤ length buffer.new) × (position + count < u64.MAX)) }
    ensures counts_call { CountsCall source.old result source.new }
    ensures moves { ReadMoves position result source.new }
    ensures ends { ReadEnds position result source.new }
    ensures end_is_told { EndIsTold R.remaining source.new }
{
    source.read_at(position, &mut buffer[len..])
}
