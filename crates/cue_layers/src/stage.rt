//! How far layers bytes were read that come in pieces.
ghost use Rattle.std.specs.Prelude.{◌≡◌, ◌≢◌, ◌↔◌, ◌<◌, ◌≤◌, ◌^◌, ◌+◌, ◌++◌, ◌∷◌, List, ℕ, [], length, take, IsTrue, IfOk, IfErr, IfSome, IfNone};
ghost use Rattle.std.specs.Int.{w64, to_be_bytes};
ghost use Rattle.cue_codec.specs.Reading.{ReadsNoItem};
ghost use Rattle.cue_lattice.specs.Refusal.{memory};
ghost use Rattle.cue_lattice.specs.declared.refusal.Kind.TheVariants.{Memory as OutOfMemory};
ghost use Rattle.cue_layers.specs.Bytes.{layer_bytes};
ghost use Rattle.cue_layers.specs.Pieces.{IsTakenIn, IsNotTakenIn, failed};
ghost use Rattle.cue_layers.specs.Inner.Reading.{AreFront, IsHeld, IsKeyBehind};
ghost use Rattle.cue_layers.specs.Inner.Stages.{front_byte, front_bytes, start_bytes, read_bytes, before_state};
ghost use Rattle.cue_layers.specs.Inner.Stages.{intake_of, intake_behind, IsHead, CanBegin, IsPartRead};
ghost use Rattle.cue_layers.specs.Inner.Stages.{IsStateRead, IsSound, HasTaken, HasNoFault, IsContentRead, IsNoContentRead};
ghost use Rattle.cue_layers.specs.Inner.Walks.{head_bytes};

use crate::layer::Layer;
use crate::putting::may_put;
use crate::reading::{Parts, name_of, u16_at, u64_at};
use cue_lattice::{Kind, Refusal, Text};
use cue_policies::LayerKind;
use cue_replica::{Replica, StateReader};
use std::alloc::Global;
use std::cmp::Ordering;

/// How the state bytes in layers begin: with their mark and the version that is written.
const STATE_FRONT: [u8; 5] = [0xfe, 0x43, 0x55, 0x45, 2];

/// How many bytes each state has at least: the mark, the version and the count of rows.
const STATE_LEN: u64 = 13;

/// How many bytes a kind and the length of a name have.
const START_LEN: usize = 3;

/// How many bytes are read as one behind the name of a layer: the revision, the length of the state
/// bytes, and how these begin.
const HEAD_LEN: usize = 21;

/// The most bytes of a name.
const NAME_LIMIT: u16 = 255;

/// The layers that were read, of so many.
#[derive(Drop)]
pub(crate) struct LayersRead {
    count: u64,
    layers: Vec<Layer>,
}

/// What begins a layer: its kind, and how many bytes its name has.
#[derive(Clone, Copy)]
pub(crate) struct LayerStart {
    kind: LayerKind,
    len: u16,
}

/// A layer whose state bytes, so many, are being read: so many are missing.
#[derive(Drop)]
pub(crate) struct StateRead {
    kind: LayerKind,
    name: Text,
    revision: u64,
    size: u64,
    missing: u64,
    reader: StateReader,
}

/// What was read of layers bytes.
#[derive(Drop)]
pub(crate) enum Stage {
    /// So many bytes of the mark and the version.
    Front(usize),
    /// The mark, the version, and bytes of the count.
    Count(Vec<u8>),
    /// Layers, and bytes of a kind and of the length of a name.
    Start(LayersRead, Vec<u8>),
    /// Layers, what begins another one, and bytes from its name to the front of its state.
    Head(LayersRead, LayerStart, Vec<u8>),
    /// Layers, and another one without the end of its state.
    State(LayersRead, StateRead),
    /// All layers.
    Whole(Vec<Layer>),
    /// The mark and another version.
    OtherVersion,
    /// Bytes with which no layers bytes begin.
    NoLayers,
    /// Nothing, since memory ran out.
    Failed,
}

/// The byte at this index of the mark and the version.
fn front_byte(index: usize) -> u8
    ensures { result ≡ front_byte index }
{
    match index {
        0 => 0xfe,
        1 => 0x4c,
        2 => 0x41,
        3 => 0x59,
        _ => 1,
    }
}

/// One byte more behind so many of the mark and the version.
fn next_front(alloc: Global, count: usize, byte: u8) -> Stage
    requires { count < 5 }
    ensures { HasTaken (take count front_bytes ++ (byte ∷ [])) result }
{
    if byte != front_byte(count) {
        return wrong_front(count, byte);
    }
    if count < 4 {
        return Stage::Front(count + 1);
    }
    Stage::Count(Vec::new(alloc))
}

/// What bytes are that begin as layers bytes do but for their last one.
fn wrong_front(count: usize, byte: u8) -> Stage
    requires few { count < 5 }
    requires wrong { byte ≢ front_byte count }
    ensures { HasTaken (take count front_bytes ++ (byte ∷ [])) result }
{
    if count == 4 {
        Stage::OtherVersion
    } else {
        Stage::NoLayers
    }
}

/// Bytes with one more behind them.
fn with_byte(mut bytes: Vec<u8>, byte: u8) -> Result<Vec<u8>, Kind>
    ensures ok { IfOk result (λ longer. longer.items ≡ bytes.items ++ (byte ∷ [])) }
    ensures memory { IfErr result (λ kind. kind ≡ OutOfMemory) }
{
    match bytes.push(byte) {
        Ok(()) => Ok(bytes),
        Err(_) => Err(Kind::Memory),
    }
}

/// The number of 8 bytes, where there are so many.
fn count_of(bytes: &[u8]) -> Option<u64>
    requires { length bytes.now ≤ 8 }
    ensures some { IfSome result (λ count. (bytes.now ≡ to_be_bytes w64 count) × (count < 2 ^ 64)) }
    ensures none { IfNone result (length bytes.now < 8) }
{
    let (number, _) = bytes.split_first_chunk::<8>()?;
    Some(u64::from_be_bytes(*number))
}

/// One byte more of the count.
fn next_count(alloc: Global, bytes: Vec<u8>, byte: u8) -> Result<Stage, Kind>
    requires { length bytes.items < 8 }
    ensures ok { IfOk result (HasTaken (front_bytes ++ (bytes.items ++ (byte ∷ [])))) }
    ensures memory { IfErr result (λ kind. kind ≡ OutOfMemory) }
{
    let bytes = with_byte(bytes, byte)?;
    match count_of(&bytes) {
        None => Ok(Stage::Count(bytes)),
        Some(0) => Ok(Stage::NoLayers),
        Some(count) => {
            let layers = Vec::new(alloc);
            let start = Vec::new(alloc);
            Ok(Stage::Start(LayersRead { count, layers }, start))
        }
    }
}

/// The kind of a layer and the length of its name, where some layer begins so.
fn start_of(bytes: &[u8]) -> Option<LayerStart>
    requires { length bytes.now ≡ 3 }
    ensures some { IfSome result (λ start. (bytes.now ≡ start_bytes start) × (start.len ≤ 255)) }
    ensures none { IfNone result ((more : List ℕ)
        → ReadsNoItem IsHeld layer_bytes (bytes.now ++ more)) }
{
    let (kind, rest) = bytes.split_first()?;
    let (len, _) = u16_at(rest)?;
    if NAME_LIMIT < len {
        return None;
    }
    match *kind {
        0 => Some(LayerStart {
            kind: LayerKind::Layer,
            len,
        }),
        1 => Some(LayerStart {
            kind: LayerKind::Policy,
            len,
        }),
        _ => None,
    }
}

/// One byte more of the kind of a layer and the length of its name.
fn next_start(alloc: Global, read: LayersRead, bytes: Vec<u8>, byte: u8) -> Result<Stage, Kind>
    requires read { IsPartRead read }
    requires few { length bytes.items < 3 }
    ensures ok { IfOk result (HasTaken (read_bytes read ++ (bytes.items ++ (byte ∷ [])))) }
    ensures memory { IfErr result (λ kind. kind ≡ OutOfMemory) }
{
    let bytes = with_byte(bytes, byte)?;
    if bytes.len() < START_LEN {
        return Ok(Stage::Start(read, bytes));
    }
    match start_of(&bytes) {
        None => Ok(Stage::NoLayers),
        Some(start) => Ok(Stage::Head(read, start, Vec::new(alloc))),
    }
}

/// Bytes with some more behind them.
fn with_bytes(mut bytes: Vec<u8>, more: &[u8]) -> Result<Vec<u8>, Kind>
    ensures ok { IfOk result (λ longer. longer.items ≡ bytes.items ++ more.now) }
    ensures memory { IfErr result (λ kind. kind ≡ OutOfMemory) }
{
    match bytes.extend_from_slice(more) {
        Ok(()) => Ok(bytes),
        Err(_) => Err(Kind::Memory),
    }
}

/// Whether a layer of this key comes behind all others of a map, or is its first.
fn is_key_behind(layers: &[Layer], kind: LayerKind, name: &str) -> bool
    ensures { IsTrue result ↔ IsKeyBehind layers.now kind name.now }
{
    match layers.last() {
        None => name.is_empty(),
        Some(last) => last.compare_key(kind, name) == Ordering::Less,
    }
}

/// A name, a revision, the length of state bytes, and how these begin.
#[derive(Clone, Copy)]
struct LayerHead<'a> {
    name: &'a [u8],
    revision: u64,
    size: u64,
    state: &'a [u8],
}

/// What bytes tell from the name of a layer to the front of its state.
fn head_of(len: u16, bytes: &[u8]) -> Option<LayerHead<'_>>
    requires { length bytes.now ≡ len + 21 }
    ensures some { IfSome result (λ head.
        IsHead len head.name.now head.revision head.size head.state.now bytes.now) }
    ensures none { IfNone result ⊥ }
{
    let (name, rest) = bytes.split_at(len as usize);
    let (revision, rest) = u64_at(rest)?;
    let (size, state) = u64_at(rest)?;
    Some(LayerHead {
        name,
        revision,
        size,
        state,
    })
}

/// The name of a layer that can come behind these.
fn name_in<'a>(layers: &[Layer], kind: LayerKind, head: LayerHead<'a>) -> Option<&'a str>
    ensures some { IfSome result (λ name. (name.now ≡ head.entry.name.now)
        × CanBegin layers.now kind head.entry.name.now head.entry.revision head.entry.size head.entry.state.now) }
    ensures none { IfNone result
        (¬ CanBegin layers.now kind head.entry.name.now head.entry.revision head.entry.size head.entry.state.now) }
{
    let parts = Parts {
        kind,
        name: head.name,
        revision: head.revision,
        state: head.state,
    };
    let name = name_of(parts)?;
    if head.size < STATE_LEN || !head.state.starts_with(&STATE_FRONT) {
        return None;
    }
    if !is_key_behind(layers, kind, name) {
        return None;
    }
    Some(name)
}

/// A state that begins behind this head.
fn begin_state(
    alloc: Global,
    read: LayersRead,
    kind: LayerKind,
    name: &str,
    head: LayerHead<'_>,
) -> Result<Stage, Kind>
    requires read { IsPartRead read }
    requires can { CanBegin read.layers.items kind name.now head.revision head.size head.state.now }
    requires len { length head.state.now ≡ 5 }
    requires revision { head.revision < 2 ^ 64 }
    requires size { head.size < 2 ^ 64 }
    ensures ok { IfOk result (HasTaken (read_bytes read
        ++ (head_bytes kind name.now head.entry.revision head.entry.size ++ head.entry.state.now))) }
    ensures memory { IfErr result (λ kind. kind ≡ OutOfMemory) }
{
    let mut reader = StateReader::new(alloc);
    reader.feed(head.state)?;
    let Ok(name) = Text::from_str(alloc, name) else {
        return Err(Kind::Memory);
    };
    let state = StateRead {
        kind,
        name,
        revision: head.revision,
        size: head.size,
        missing: head.size - head.state.len() as u64,
        reader,
    };
    Ok(Stage::State(read, state))
}

/// What was read of a layer up to the front of its state.
fn end_head(alloc: Global, read: LayersRead, start: LayerStart, bytes: &[u8]) -> Result<Stage, Kind>
    requires read { IsPartRead read }
    requires len { length bytes.now ≡ start.len + 21 }
    ensures ok { IfOk result (HasTaken (read_bytes read ++ (start_bytes start ++ bytes.now))) }
    ensures memory { IfErr result (λ kind. kind ≡ OutOfMemory) }
{
    let Some(head) = head_of(start.len, bytes) else {
        return Ok(Stage::NoLayers);
    };
    match name_in(read.layers.as_slice(), start.kind, head) {
        None => Ok(Stage::NoLayers),
        Some(name) => begin_state(alloc, read, start.kind, name, head),
    }
}

/// More of a layer up to the front of its state, and how many bytes these were.
fn next_head(
    alloc: Global,
    read: LayersRead,
    start: LayerStart,
    bytes: Vec<u8>,
    piece: &[u8],
) -> Result<(Stage, usize), Kind>
    requires read { IsPartRead read }
    requires len { length bytes.items < start.len + 21 }
    requires short { start.len ≤ 255 }
    requires some { 0 < length piece.now }
    ensures len { IfOk result (λ next. (0 < next.1) × (next.1 ≤ length piece.now)) }
    ensures ok { IfOk result (λ next. HasTaken (read_bytes read
        ++ ((start_bytes start ++ bytes.items) ++ take next.1 piece.now)) next.0) }
    ensures memory { IfErr result (λ kind. kind ≡ OutOfMemory) }
{
    let wanted = start.len as usize + HEAD_LEN - bytes.len();
    let len = wanted.min(piece.len());
    let (front, _) = piece.split_at(len);
    let bytes = with_bytes(bytes, front)?;
    if len < wanted {
        return Ok((Stage::Head(read, start, bytes), len));
    }
    let stage = end_head(alloc, read, start, &bytes)?;
    Ok((stage, len))
}

/// Whether a state was not read because memory ran out.
fn ran_out(why: Refusal) -> bool
    ensures { IsTrue result ↔ (why ≡ memory) }
{
    why == Refusal::at(Kind::Memory, 0)
}

/// The site with the state bytes that a reader was handed; nothing where they are of none.
fn content_of(alloc: Global, reader: StateReader) -> Result<Option<Replica>, Kind>
    ensures some { IfOk result (λ found. IfSome found (IsContentRead reader)) }
    ensures none { IfOk result (λ found. IfNone found (IsNoContentRead reader)) }
    ensures memory { IfErr result (λ kind. (kind ≡ OutOfMemory) × HasNoFault reader) }
{
    let mut content = Replica::new(alloc);
    match content.take_read(reader) {
        Ok(()) => Ok(Some(content)),
        Err(why) => {
            if ran_out(why) {
                return Err(Kind::Memory);
            }
            Ok(None)
        }
    }
}

/// Layers with one more.
fn with_layer(read: LayersRead, layer: Layer) -> Result<LayersRead, Kind>
    ensures ok { IfOk result (λ longer. (longer.count ≡ read.count)
        × (longer.layers.items ≡ read.layers.items ++ (layer ∷ []))) }
    ensures memory { IfErr result (λ kind. kind ≡ OutOfMemory) }
{
    let LayersRead { count, mut layers } = read;
    match layers.push(layer) {
        Ok(()) => Ok(LayersRead { count, layers }),
        Err(_) => Err(Kind::Memory),
    }
}

/// What comes behind layers: another one, or nothing.
fn after_layer(alloc: Global, read: LayersRead) -> Stage
    requires front { AreFront read.layers.items }
    requires some { 0 < length read.layers.items }
    requires few { length read.layers.items ≤ read.count }
    ensures { HasTaken (read_bytes read) result }
{
    let LayersRead { count, layers } = read;
    if (layers.len() as u64) < count {
        return Stage::Start(LayersRead { count, layers }, Vec::new(alloc));
    }
    Stage::Whole(layers)
}

/// A layer whose state is whole.
fn end_state(alloc: Global, read: LayersRead, state: StateRead) -> Result<Stage, Kind>
    requires read { IsPartRead read }
    requires state { IsStateRead read.layers.items state }
    requires whole { state.missing ≡ 0 }
    ensures sound { IfOk result IsSound }
    ensures ok { IfOk result (λ new.
        IsTakenIn (intake_behind (before_state read state) state.reader) [] (intake_of new)) }
    ensures memory { IfErr result (λ kind. (kind ≡ OutOfMemory) × HasNoFault state.reader) }
{
    let StateRead {
        kind,
        name,
        revision,
        reader,
        ..
    } = state;
    let Some(content) = content_of(alloc, reader)? else {
        return Ok(Stage::NoLayers);
    };
    if !may_put(kind, &content) {
        return Ok(Stage::NoLayers);
    }
    let layer = Layer {
        kind,
        name,
        revision,
        content,
    };
    let read = with_layer(read, layer)?;
    Ok(after_layer(alloc, read))
}

/// More of the state of a layer, and how many bytes these were.
fn next_state(
    alloc: Global,
    read: LayersRead,
    state: StateRead,
    piece: &[u8],
) -> Result<(Stage, usize), Kind>
    requires read { IsPartRead read }
    requires state { IsStateRead read.layers.items state }
    requires more { 0 < state.missing }
    requires some { 0 < length piece.now }
    ensures len { IfOk result (λ next. (0 < next.1) × (next.1 ≤ length piece.now)) }
    ensures sound { IfOk result (λ next. IsSound next.0) }
    ensures ok { IfOk result (λ next. IsTakenIn (intake_behind (before_state read state) state.reader)
        (take next.1 piece.now) (intake_of next.0)) }
    ensures memory { IfErr result (λ kind.
        IsNotTakenIn (intake_behind (before_state read state) state.reader) kind failed) }
{
    let mut state = state;
    let len = state.missing.min(piece.len() as u64) as usize;
    let (front, _) = piece.split_at(len);
    state.reader.feed(front)?;
    state.missing -= len as u64;
    if 0 < state.missing {
        return Ok((Stage::State(read, state), len));
    }
    let stage = end_state(alloc, read, state)?;
    Ok((stage, len))
}

impl Stage {
    /// What was read, with bytes that come next, and how many of these.
    fn next(self, alloc: Global, piece: &[u8]) -> Result<(Stage, usize), Kind>
        requires sound { IsSound self }
        requires some { 0 < length piece.now }
        ensures len { IfOk result (λ next. (0 < next.1) × (next.1 ≤ length piece.now)) }
        ensures sound { IfOk result (λ next. IsSound next.0) }
        ensures ok { IfOk result (λ next.
            IsTakenIn (intake_of self) (take next.1 piece.now) (intake_of next.0)) }
        ensures err { IfErr result (λ kind. IsNotTakenIn (intake_of self) kind failed) }
    {
        match self {
            Stage::Front(count) => Ok((next_front(alloc, count, piece[0]), 1)),
            Stage::Count(bytes) => Ok((next_count(alloc, bytes, piece[0])?, 1)),
            Stage::Start(read, bytes) => Ok((next_start(alloc, read, bytes, piece[0])?, 1)),
            Stage::Head(read, start, bytes) => next_head(alloc, read, start, bytes, piece),
            Stage::State(read, state) => next_state(alloc, read, state, piece),
            Stage::Whole(_) => Ok((Stage::NoLayers, piece.len())),
            Stage::OtherVersion => Ok((Stage::OtherVersion, piece.len())),
            Stage::NoLayers => Ok((Stage::NoLayers, piece.len())),
            Stage::Failed => Err(Kind::Failed),
        }
    }

    /// What was read, with all of a piece that comes next.
    pub(crate) fn more(self, alloc: Global, piece: &[u8]) -> Result<Stage, Kind>
        requires { IsSound self }
        ensures sound { IfOk result IsSound }
        ensures ok { IfOk result (λ new. IsTakenIn (intake_of self) piece.now (intake_of new)) }
        ensures err { IfErr result (λ kind. IsNotTakenIn (intake_of self) kind failed) }
    {
        if matches!(&self, Stage::Failed) {
            return Err(Kind::Failed);
        }
        let mut stage = self;
        let mut rest = piece;
        'pieces: while !rest.is_empty() {
            let (next, len) = stage.next(alloc, rest)?;
            stage = next;
            let (_, back) = rest.split_at(len);
            rest = back;
        }
        Ok(stage)
    }
}
