use crate::files::{
    File, bytes_of, error_of, make_folders, make_private, open_files, rename, set_old_aside,
};
use anyhow::Result;
use cue_http::Gathers;
use cue_journal::{FileNumber, Unread, read_pieces};
use cue_layers::LayersRefusal;
use cue_layers_site::{LayeredSite, LayersStartError, LayersStore, start_layers};
use cue_replica::Replica;
use cue_service::{Site, SiteRules, SourceStanding, Standing, StartError, add_entries, start_site};
use cue_settings::{Settings, SettingsError};
use http_server::Settle;
use log::{Log, info};
use sqlite_disk::{Disk, Files};
use std::alloc::Global;
use std::random::RandomSource;

/// The journal of the commons.
pub(crate) const COMMONS: &str = "journal";

/// The journal of layers.
pub(crate) const LAYERS: &str = "layers";

/// A site of this program: layers in front of the commons.
pub type StoredSite = LayeredSite<Site<File>, File>;

/// The names of the two files of a journal.
#[derive(Drop)]
pub(crate) struct JournalNames {
    pub(crate) path: String,
    pub(crate) beside: String,
}

impl JournalNames {
    /// The files of the journal with this name in a folder.
    pub(crate) fn new(alloc: Global, folder: &str, name: &str) -> Result<JournalNames> {
        Ok(JournalNames {
            path: format!(in alloc; "{folder}/{name}")?,
            beside: format!(in alloc; "{folder}/{name}-wal")?,
        })
    }

    /// Why one of the files was not read.
    fn error_of(&self, alloc: Global, file: FileNumber, why: Unread) -> SettingsError {
        match file {
            FileNumber::First => error_of(alloc, self.beside.as_str(), why),
            FileNumber::Second => error_of(alloc, self.path.as_str(), why),
        }
    }
}

/// Opens both files of a journal. Missing ones are made.
pub(crate) fn open_journal(rt: &HostRuntime, names: &JournalNames) -> Result<Files<File>> {
    make_private(rt, names.path.as_str())?;
    make_private(rt, names.beside.as_str())?;
    open_files(rt, names.path.as_str())
}

/// The first bytes, so many, or all where there are fewer.
fn front(bytes: &[u8], count: usize) -> &[u8] {
    match bytes.split_at_checked(count) {
        Some((front, _)) => front,
        None => bytes,
    }
}

/// Takes in the entries of a file of an older build that was set aside, has them reach the disk, and
/// then calls the file `.converted`. Once more it brings nothing new.
fn bring_over(rt: &HostRuntime, folder: &str, path: &str, site: &mut Site<File>) -> Result<()> {
    let alloc = rt.alloc();
    let old = format!(in alloc; "{path}.old")?;
    let bytes = bytes_of(rt, old.as_str())?;
    if bytes.is_empty() {
        return Ok(());
    }
    let (entries, end) = read_pieces(alloc, &bytes)?;
    // A site passes over what it refuses, and such a file has no checksums.
    add_entries(&mut Replica::new(alloc), &entries).map_err(SettingsError::of_entry)?;
    if !site.pull_pieces(front(&bytes, end)) || !site.settle() {
        return Err(SettingsError::system(alloc, "write", path, site.fault()).into());
    }
    let converted = format!(in alloc; "{path}.converted")?;
    rename(rt, folder, old.as_str(), converted.as_str())
}

/// The site of the commons that the folder keeps, or a new one.
fn open_commons(rt: &HostRuntime, words: &Settings) -> Result<Site<File>> {
    let alloc = rt.alloc();
    let names = JournalNames::new(alloc, words.data, COMMONS)?;
    set_old_aside(rt, words.data, names.path.as_str(), names.beside.as_str())?;
    let Files {
        log: one,
        db: other,
    } = open_journal(rt, &names)?;
    if !one.may_be_used() || !other.may_be_used() {
        return Err(SettingsError::Unusable(names.path).into());
    }
    let standing = new_standing(alloc, words)?;
    let rules = SiteRules {
        token: None,
        limit: words.most_answer,
    };
    let mut site = match start_site(alloc, one, other, rules, standing, run_number(rt)?) {
        Ok(site) => site,
        Err(StartError::File(file, why)) => return Err(names.error_of(alloc, file, why).into()),
        Err(StartError::Entry(why)) => return Err(SettingsError::of_entry(why).into()),
    };
    bring_over(rt, words.data, names.path.as_str(), &mut site)?;
    bring_over(rt, words.data, names.beside.as_str(), &mut site)?;
    Ok(site)
}

/// Why an entry of layers is refused: memory ran out, or the journal is damaged.
fn entry_error(why: LayersRefusal) -> SettingsError {
    match why {
        LayersRefusal::Store(why) => SettingsError::of_entry(why),
        _ => SettingsError::Journal(why.number(), why.name(), why.place()),
    }
}

/// The layers that the folder keeps, or none.
fn open_layers(rt: &HostRuntime, words: &Settings) -> Result<LayersStore<File>> {
    let alloc = rt.alloc();
    let names = JournalNames::new(alloc, words.data, LAYERS)?;
    let Files {
        log: one,
        db: other,
    } = open_journal(rt, &names)?;
    if !one.may_be_used() || !other.may_be_used() {
        return Err(SettingsError::Unusable(names.path).into());
    }
    match start_layers(alloc, one, other) {
        Ok(store) => Ok(store),
        Err(LayersStartError::File(file, why)) => Err(names.error_of(alloc, file, why).into()),
        Err(LayersStartError::Entry(why)) => Err(entry_error(why).into()),
    }
}

/// The site that the folder keeps, or a new one. It asks for no token: the doors in front of it do.
pub fn open_site<L: Log>(rt: &HostRuntime, log: &L, words: &Settings) -> Result<StoredSite> {
    make_folders(rt, words.data)?;
    let commons = open_commons(rt, words)?;
    let layers = open_layers(rt, words)?;
    info!(log; "the files in {} are read", words.data);
    Ok(LayeredSite::new(commons, layers))
}

/// A number for this run, which no other has that began at another moment.
fn run_number(rt: &HostRuntime) -> Result<u64> {
    let mut bytes = [0u8; 8];
    rt.fill_bytes(&mut bytes)?;
    Ok(u64::from_be_bytes(bytes))
}

fn new_standing(alloc: Global, words: &Settings) -> Result<Standing> {
    let mut sources = Vec::new(alloc);
    for peer in &words.peers {
        sources.push(SourceStanding::new(String::from_str(alloc, peer)?))?;
    }
    Ok(Standing::new(alloc, sources))
}
