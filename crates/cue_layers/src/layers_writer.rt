//! Layers bytes written in pieces.
ghost use Rattle.std.specs.Prelude.{◌≡◌, ◌⊎◌, ◌<◌, ◌≤◌, ◌++◌, [], true, false, None, length, drop, IfOk, OnErr, OnOk};
ghost use Rattle.cue_codec.specs.Pieces.{IsFilled};
ghost use Rattle.cue_replica.specs.Language.{language};
ghost use Rattle.cue_layers.specs.Bytes.{layers_bytes};
ghost use Rattle.cue_layers.specs.Layers.{IsMap};
ghost use Rattle.cue_layers.specs.Inner.Reading.{HasShortName};
ghost use Rattle.cue_layers.specs.Inner.Walks.{head_bytes, walk_bytes, walk_size, IsWalk};

use crate::layer::Layer;
use crate::layers::Layers;
use crate::writing::{byte_of, put_head, put_name};
use cue_lattice::Memory;
use cue_replica::StateWriter;
use std::alloc::Global;
use std::marker::Model;

/// How many bytes of a state are written ahead at once.
const PIECE: usize = 4096;

/// What is left of layers bytes: the state of a layer that was begun, and the layers behind it.
#[derive(Drop)]
pub(crate) struct LayerWalk<'a> {
    state: Option<StateWriter<'a>>,
    layers: &'a [Layer],
}

/// A writer that hands out the layers bytes of a map piece by piece. It holds no more of them than a
/// room that it is given takes, what begins a layer, and 4,096 bytes. Contracts see the bytes that
/// are left.
#[derive(Drop)]
pub struct LayersWriter<'a> {
    alloc: Global,
    /// Bytes that were written ahead.
    ready: Vec<u8>,
    /// How many of them were handed out.
    taken: usize,
    walk: LayerWalk<'a>,
}

impl<'a> Model for LayersWriter<'a> {
    ghost use Rattle.std.specs.Prelude.{List, ℕ, ◌≤◌, ◌++◌, drop, length};
    ghost use Rattle.cue_layers.specs.Inner.Walks.{walk_bytes, IsWalk};

    ghost Value = { List ℕ };

    ghost view = { λ writer. drop writer.taken writer.ready.items ++ walk_bytes writer.walk };

    ghost invariant = { λ writer. (writer.taken ≤ length writer.ready.items)
        × IsWalk writer.walk };
}

impl Layers {
    /// What writes the layers bytes of the map, piece by piece.
    ///
    /// # Errors
    ///
    /// `Memory`.
    pub fn writer(&self, alloc: Global) -> Result<LayersWriter<'_>, Memory>
        ensures { IfOk result (λ writer. writer ≡ layers_bytes self.now) }
    {
        LayersWriter::new(alloc, self.entries())
    }
}

/// Puts what begins the bytes of a layer behind others: all but the state bytes, which are so many.
fn put_layer_head(out: &mut Vec<u8>, layer: &Layer, size: u64) -> Result<(), Memory>
    requires { HasShortName layer.now }
    ensures { OnOk result (out.new.items
        ≡ out.old.items ++ head_bytes layer.now.kind layer.now.name layer.now.revision size) }
{
    out.push(byte_of(layer.kind))?;
    put_name(out, layer.name.as_bytes())?;
    out.extend_from_slice(&layer.revision.to_be_bytes())?;
    out.extend_from_slice(&size.to_be_bytes())?;
    Ok(())
}

/// What begins the bytes of a layer.
fn layer_head(alloc: Global, layer: &Layer, size: u64) -> Result<Vec<u8>, Memory>
    requires { HasShortName layer.now }
    ensures { IfOk result (λ head. head.items
        ≡ head_bytes layer.now.kind layer.now.name layer.now.revision size) }
{
    let mut out = Vec::new(alloc);
    put_layer_head(&mut out, layer, size)?;
    Ok(out)
}

/// How many bytes the state of a layer has. More than 64 bits tell are more than any memory holds.
fn state_size(layer: &Layer) -> Result<u64, Memory>
    ensures { IfOk result (λ size. size ≡ length (language.written layer.now.content)) }
{
    let size = layer.content.state_size();
    if size == u64::MAX {
        return Err(Memory::too_many(size, 1));
    }
    Ok(size)
}

/// Puts bytes of a state behind others, and says whether there were any.
fn add_piece(writer: &mut StateWriter<'_>, ready: &mut Vec<u8>) -> Result<bool, Memory>
    ensures same { ready.new.items ++ writer.new ≡ ready.old.items ++ writer.old }
    ensures less { IfOk result (λ some. some ≡ true → length writer.new < length writer.old) }
    ensures end { IfOk result (λ some. some ≡ false → writer.new ≡ []) }
{
    let len = ready.len();
    ready.resize(len + PIECE, 0)?;
    match writer.fill(&mut ready[len..]) {
        Ok(count) => {
            ready.truncate(len + count);
            Ok(0 < count)
        }
        Err(memory) => {
            ready.truncate(len);
            Err(memory)
        }
    }
}

impl<'a> LayerWalk<'a> {
    /// Begins the next layer, where there is one.
    fn begin_next(&mut self, alloc: Global, ready: &mut Vec<u8>) -> Result<bool, Memory>
        requires walk { IsWalk self.old }
        requires none { self.old.state ≡ None }
        ensures walk { IsWalk self.new }
        ensures same { ready.new.items ++ walk_bytes self.new
            ≡ ready.old.items ++ walk_bytes self.old }
        ensures less { IfOk result (λ some. some ≡ true → walk_size self.new < walk_size self.old) }
        ensures end { IfOk result (λ some. some ≡ false → walk_bytes self.new ≡ []) }
    {
        let Some((layer, others)) = self.layers.split_first() else {
            return Ok(false);
        };
        let size = state_size(layer)?;
        let writer = layer.content.state_writer()?;
        let head = layer_head(alloc, layer, size)?;
        ready.extend_from_slice(&head)?;
        self.state = Some(writer);
        self.layers = others;
        Ok(true)
    }

    /// Puts some of the bytes that are left behind others, and says whether any are left then.
    fn write_next(&mut self, alloc: Global, ready: &mut Vec<u8>) -> Result<bool, Memory>
        requires { IsWalk self.old }
        ensures walk { IsWalk self.new }
        ensures same { ready.new.items ++ walk_bytes self.new
            ≡ ready.old.items ++ walk_bytes self.old }
        ensures less { IfOk result (λ some. some ≡ true → walk_size self.new < walk_size self.old) }
        ensures end { IfOk result (λ some. some ≡ false → walk_bytes self.new ≡ []) }
    {
        match self.state.take() {
            None => self.begin_next(alloc, ready),
            Some(mut writer) => {
                let added = add_piece(&mut writer, ready);
                self.state = Some(writer);
                if !added? {
                    self.state = None;
                }
                Ok(true)
            }
        }
    }

    /// Writes until there are so many bytes, or none is left.
    fn write_ahead(
        &mut self,
        alloc: Global,
        ready: &mut Vec<u8>,
        wanted: usize,
    ) -> Result<(), Memory>
        requires { IsWalk self.old }
        ensures walk { IsWalk self.new }
        ensures same { ready.new.items ++ walk_bytes self.new
            ≡ ready.old.items ++ walk_bytes self.old }
        ensures enough { OnOk result
            ((wanted ≤ length ready.new.items) ⊎ (walk_bytes self.new ≡ [])) }
    {
        'ahead: while ready.len() < wanted {
            if !self.write_next(alloc, ready)? {
                return Ok(());
            }
        }
        Ok(())
    }
}

/// Drops the first bytes, so many.
fn drop_front(bytes: &mut Vec<u8>, count: usize)
    requires { count ≤ length bytes.old.items }
    ensures { bytes.new.items ≡ drop count bytes.old.items }
{
    let left = bytes.len() - count;
    bytes.copy_within(count.., 0);
    bytes.truncate(left);
}

/// Writes until so many bytes are ready that were not handed out, or none is left. Those that were
/// handed out make room for them.
fn make_ready(
    alloc: Global,
    ready: &mut Vec<u8>,
    taken: &mut usize,
    walk: &mut LayerWalk<'_>,
    wanted: usize,
) -> Result<(), Memory>
    requires within { taken.old ≤ length ready.old.items }
    requires walk { IsWalk walk.old }
    ensures within { taken.new ≤ length ready.new.items }
    ensures walk { IsWalk walk.new }
    ensures same { drop taken.new ready.new.items ++ walk_bytes walk.new
        ≡ drop taken.old ready.old.items ++ walk_bytes walk.old }
    ensures enough { OnOk result ((wanted ≤ length (drop taken.new ready.new.items))
        ⊎ (walk_bytes walk.new ≡ [])) }
{
    if wanted <= ready.len() - *taken {
        return Ok(());
    }
    drop_front(ready, *taken);
    *taken = 0;
    walk.write_ahead(alloc, ready, wanted)
}

impl<'a> LayersWriter<'a> {
    /// A writer of the layers bytes of a map.
    fn new(alloc: Global, layers: &'a [Layer]) -> Result<LayersWriter<'a>, Memory>
        requires { IsMap layers.now }
        ensures { IfOk result (λ writer. writer ≡ layers_bytes layers.now) }
    {
        let mut ready = Vec::new(alloc);
        put_head(&mut ready, layers.len() as u64)?;
        Ok(LayersWriter {
            alloc,
            ready,
            taken: 0,
            walk: LayerWalk {
                state: None,
                layers,
            },
        })
    }

    /// Writes as many of the bytes that are left as there is room for, and says how many: fewer than
    /// the room has only where no more are left. After an error, which says that memory ran out, all
    /// is as it was.
    pub fn fill(&mut self, room: &mut [u8]) -> Result<usize, Memory>
        ensures ok { IfOk result (λ count. IsFilled self.old room.old count self.new room.new) }
        ensures err { OnErr result ((self.new ≡ self.old) × (room.new ≡ room.old)) }
    {
        make_ready(
            self.alloc,
            &mut self.ready,
            &mut self.taken,
            &mut self.walk,
            room.len(),
        )?;
        let rest = &self.ready[self.taken..];
        let count = rest.len().min(room.len());
        room[..count].copy_from_slice(&rest[..count]);
        self.taken += count;
        Ok(count)
    }
}
