//! A map of layers that lies in a file.
ghost use Rattle.std.specs.Prelude.{ℕ, List, IfOk, IfErr, OnOk};
ghost use Rattle.cue_layers.specs.Bytes.{IsLayersBytes};
ghost use Rattle.cue_layers.specs.Names.{IsLayerName};
ghost use Rattle.cue_program.specs.Files.{known_at, IsWholeFile};
ghost use Rattle.cue_layers_program.specs.Changes.{IsBadName};
ghost use Rattle.cue_layers_program.specs.MapFiles.{IsMapFault, PutsMap, ReadsMap};
ghost use Rattle.cue_layers_program.specs.MapFiles.{StopsPuttingMap, StopsReadingMap};

use crate::stop::LayersStop;
use cue_layers::{Layers, LayersRefusal, bad_place};
use cue_program::{Contents, FileForm, FileSystem, put, read_whole};

/// Refuses what is no name of a layer.
///
/// # Errors
///
/// `BadName`, of no input.
pub fn check_name(name: &str) -> Result<(), LayersStop>
    ensures name { OnOk result (IsLayerName name.now) }
    ensures bad { IfErr result (IsBadName name.now) }
{
    match bad_place(name.as_bytes()) {
        None => Ok(()),
        Some(place) => Err(LayersStop::Refused(LayersRefusal::BadName(place as u64))),
    }
}

/// The map in the file of this name. Where nothing lies there it is a new one.
///
/// # Errors
///
/// `NotLayers` and `Version`, of no input; `Device`, and want of memory.
pub fn read_map<H: AllocGlobal + FileSystem>(rt: &mut H, name: &str) -> Result<Layers, LayersStop>
    ensures read { IfOk result (λ map. ReadsMap H.makes H.held name.now map rt.old rt.new) }
    ensures stop { IfErr result (StopsReadingMap H.makes H.held name.now rt.old rt.new) }
{
    match rt.look_at(name)? {
        FileForm::Nothing => Ok(Layers::new(rt.alloc())?),
        _ => read_layers(&*rt, name),
    }
}

/// The map with the layers bytes of the file of this name.
fn read_layers<H: AllocGlobal + FileSystem>(rt: &H, name: &str) -> Result<Layers, LayersStop>
    ensures read { IfOk result (λ map. (bytes : List ℕ)
        × IsWholeFile (known_at (H.held rt.now) name.now) bytes × IsLayersBytes bytes map) }
    ensures stop { IfErr result (IsMapFault (known_at (H.held rt.now) name.now)) }
{
    let bytes = read_whole(rt, name)?;
    Ok(Layers::read(rt.alloc(), &bytes)?)
}

/// Puts the layers bytes of a map at a name.
///
/// # Errors
///
/// `Device`, and want of memory. What lay there, a file or nothing, lies there then.
pub fn put_map<H: AllocGlobal + FileSystem>(
    rt: &mut H,
    name: &str,
    map: &Layers,
) -> Result<(), LayersStop>
    ensures put { OnOk result (PutsMap H.makes name.now map.now rt.old rt.new) }
    ensures stop { IfErr result (StopsPuttingMap H.makes name.now rt.old rt.new) }
{
    let alloc = rt.alloc();
    let bytes = map.write(alloc)?;
    Ok(put(rt, alloc, name, &Contents::Bytes(&bytes))?)
}
