//! Layers bytes that are read and written in pieces.
use crate::calls::piece;
use cue_layers::{
    Kind, LayerKind, Layers, LayersReader, LayersRefusal, LayersWriter, Memory, Refusal,
    layers_are_read_in_pieces,
};
use std::alloc::Global;
use std::test::Fail;

/// A map of a commons, two layers, a removed one and a policy.
fn map(alloc: Global) -> Result<Layers, LayersRefusal> {
    let mut map = Layers::new(alloc)?;
    let web = piece(alloc, "replicas: 6\nl: [1, ...int]\n")?;
    let all = piece(alloc, "services: \"*\": tls: true\n")?;
    map.submit("port: 80 | 443\n")?;
    map.put(LayerKind::Layer, "team/web", web.as_slice())?;
    map.put(LayerKind::Layer, "a", web.as_slice())?;
    map.remove(LayerKind::Layer, "a")?;
    map.put(LayerKind::Policy, "all", all.as_slice())?;
    Ok(map)
}

/// Hands a reader a piece of layers bytes.
fn feed(reader: &mut LayersReader, piece: &[u8]) -> Result<(), Kind> {
    reader.feed(piece)
}

/// What layers bytes are read as in pieces of so many.
fn read_in_pieces(alloc: Global, bytes: &[u8], size: usize) -> Result<Layers, LayersRefusal> {
    let mut reader = LayersReader::new(alloc);
    for piece in bytes.chunks(size.max(1)) {
        if let Err(kind) = feed(&mut reader, piece) {
            return Err(LayersRefusal::Store(Refusal::at(kind, 0)));
        }
    }
    finish(reader)
}

/// What a reader answers.
fn finish(reader: LayersReader) -> Result<Layers, LayersRefusal> {
    reader.finish()
}

/// Whether bytes are read alike at once and in pieces of so many.
fn reads_alike(alloc: Global, bytes: &[u8], size: usize) -> bool {
    let whole = Layers::read(alloc, bytes);
    match (whole, read_in_pieces(alloc, bytes, size)) {
        (Ok(map), Ok(other)) => map.same(&other),
        (Err(why), Err(other)) => why == other,
        _ => false,
    }
}

/// Whether bytes are read alike in pieces of several sizes.
fn reads_alike_in_all(alloc: Global, bytes: &[u8]) -> bool {
    for size in [1usize, 7, 64, 100_000] {
        if !reads_alike(alloc, bytes, size) {
            return false;
        }
    }
    true
}

#[test]
fn layers_in_pieces_are_read_as_at_once(rt: HostRuntime) -> Result<(), Fail> {
    let alloc = rt.alloc();
    let bytes = map(alloc)?.write(alloc)?;
    assert!(rt; Layers::read(alloc, bytes.as_slice()).is_ok());
    assert!(rt; reads_alike_in_all(alloc, bytes.as_slice()));
    let opening = Layers::new(alloc)?.write(alloc)?;
    assert!(rt; Layers::read(alloc, opening.as_slice()).is_ok());
    assert!(rt; reads_alike_in_all(alloc, opening.as_slice()));
    layers_are_read_in_pieces();
    Ok(())
}

#[test]
fn each_beginning_is_read_as_at_once(rt: HostRuntime) -> Result<(), Fail> {
    let alloc = rt.alloc();
    let bytes = map(alloc)?.write(alloc)?;
    for len in 0..bytes.len() {
        assert!(rt; reads_alike(alloc, &bytes[..len], 5));
    }
    Ok(())
}

/// Whether bytes are read alike at once and in pieces of so many, with each byte changed in turn.
fn reads_changed_alike(alloc: Global, bytes: &mut Vec<u8>, change: u8, size: usize) -> bool {
    for place in 0..bytes.len() {
        bytes[place] ^= change;
        let alike = reads_alike(alloc, bytes.as_slice(), size);
        bytes[place] ^= change;
        if !alike {
            return false;
        }
    }
    true
}

#[test]
fn each_change_is_read_as_at_once(rt: HostRuntime) -> Result<(), Fail> {
    let alloc = rt.alloc();
    let mut bytes = map(alloc)?.write(alloc)?;
    assert!(rt; reads_changed_alike(alloc, &mut bytes, 1, 40));
    assert!(rt; reads_changed_alike(alloc, &mut bytes, 0x83, 1000));
    Ok(())
}

#[test]
fn bytes_behind_the_layers_are_refused_in_pieces(rt: HostRuntime) -> Result<(), Fail> {
    let alloc = rt.alloc();
    let mut bytes = map(alloc)?.write(alloc)?;
    bytes.push(0)?;
    assert!(rt; Layers::read(alloc, bytes.as_slice()).is_err());
    assert!(rt; reads_alike_in_all(alloc, bytes.as_slice()));
    Ok(())
}

/// The fault at which a reader stands that was handed these bytes.
fn fault_of(alloc: Global, bytes: &[u8]) -> Result<Option<LayersRefusal>, Kind> {
    let mut reader = LayersReader::new(alloc);
    feed(&mut reader, bytes)?;
    Ok(reader.fault())
}

#[test]
fn faults_are_found_before_the_end(rt: HostRuntime) -> Result<(), Fail> {
    let alloc = rt.alloc();
    let not = Some(LayersRefusal::NotLayers);
    let other = Some(LayersRefusal::Store(Refusal::at(Kind::Version, 0)));
    assert_eq!(rt; fault_of(alloc, b"").ok(), Some(None));
    assert_eq!(rt; fault_of(alloc, b"a").ok(), Some(not));
    assert_eq!(rt; fault_of(alloc, b"\xfeLA").ok(), Some(None));
    assert_eq!(rt; fault_of(alloc, b"\xfeLAY\x02").ok(), Some(other));
    assert_eq!(rt;
        fault_of(alloc, b"\xfeLAY\x01\0\0\0\0\0\0\0\0").ok(),
        Some(not)
    );
    assert_eq!(rt;
        fault_of(alloc, b"\xfeLAY\x01\0\0\0\0\0\0\0\x01\0\x01\0").ok(),
        Some(not)
    );
    assert_eq!(rt;
        fault_of(alloc, b"\xfeLAY\x01\0\0\0\0\0\0\0\x01\x02\0\0").ok(),
        Some(not)
    );
    assert_eq!(rt;
        fault_of(alloc, b"\xfeLAY\x01\0\0\0\0\0\0\0\x01\0\0\0").ok(),
        Some(None)
    );
    Ok(())
}

/// Writes as many bytes into a room as it takes.
fn fill(writer: &mut LayersWriter<'_>, room: &mut [u8]) -> Result<usize, Memory> {
    writer.fill(room)
}

/// What a writer writes into a room of so many bytes, again and again.
fn written_in_pieces(alloc: Global, map: &Layers, size: usize) -> Result<Vec<u8>, Memory> {
    let mut bytes = Vec::new(alloc);
    let mut room = vec![in alloc; 0u8; size]?;
    let mut writer = map.writer(alloc)?;
    for _ in 0..1_000_000u32 {
        let count = fill(&mut writer, &mut room)?;
        bytes.extend_from_slice(&room[..count.min(size)])?;
        if count < size {
            return Ok(bytes);
        }
    }
    Ok(bytes)
}

#[test]
fn layers_in_pieces_are_written_as_at_once(rt: HostRuntime) -> Result<(), Fail> {
    let alloc = rt.alloc();
    let map = map(alloc)?;
    let whole = map.write(alloc)?;
    for size in [1usize, 7, 64, 5_000, 100_000] {
        let pieces = written_in_pieces(alloc, &map, size)?;
        assert_eq!(rt; pieces.as_slice(), whole.as_slice());
    }
    Ok(())
}

/// Whether a map is read from bytes in pieces of so many, or memory ran out for good.
fn reads_or_fails(alloc: Global, bytes: &[u8], size: usize) -> bool {
    let mut reader = LayersReader::new(alloc);
    for piece in bytes.chunks(size.max(1)) {
        if let Err(kind) = feed(&mut reader, piece) {
            let failed = Some(LayersRefusal::Store(Refusal::at(Kind::Failed, 0)));
            return kind == Kind::Memory
                && feed(&mut reader, piece) == Err(Kind::Failed)
                && reader.fault() == failed
                && finish(reader).err() == failed;
        }
    }
    finish(reader).is_ok()
}

#[test]
fn a_reader_that_memory_ran_out_for_has_failed(rt: HostRuntime) -> Result<(), Fail> {
    let alloc = rt.alloc();
    let Ok(map) = map(alloc) else {
        return Ok(());
    };
    let Ok(bytes) = map.write(alloc) else {
        return Ok(());
    };
    assert!(rt; reads_or_fails(alloc, bytes.as_slice(), 1));
    assert!(rt; reads_or_fails(alloc, bytes.as_slice(), 40));
    Ok(())
}
