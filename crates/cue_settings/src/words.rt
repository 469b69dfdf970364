ghost use Rattle.std.specs.Prelude.{◌≡◌, ◌*◌};
ghost use Rattle.std.specs.Duration.{as_nanos};

use crate::rules::answer_limit;
use crate::stop::SettingsError;
use anyhow::Result;
use clap::builder::ValueParser;
use clap::{Arg, ArgAction, ArgMatches, Command, value_parser};
use cue_doors::Doors;
use cue_http::{Bounds, PullSource};
use http_server::Config;
use http_uri::{Uri, UriError};
use std::alloc::{AllocError, Global};
use std::net::{SocketAddr, ToSocketAddrs};
use std::time::Duration;

/// No body is longer, in bytes.
const MOST_BODY: usize = 64 * 1024 * 1024;

/// So many bytes wait to be sent before no more requests of a connection are read.
const MOST_PENDING: usize = 256 * 1024;

/// What the program was asked for.
#[derive(Drop)]
pub struct Settings<'a> {
    pub data: &'a str,
    pub listen: &'a str,
    pub peers: Vec<&'a str>,
    /// The file of the tokens that may write.
    pub token_file: Option<&'a str>,
    /// The file of the tokens that may read.
    pub read_token_file: Option<&'a str>,
    /// The file of the token that the site sends to its peers.
    pub peer_token_file: Option<&'a str>,
    /// Host names of the site, beside its addresses and those of loopback.
    pub hosts: Vec<&'a str>,
    /// A peer is asked each so many seconds.
    pub every: u64,
    /// So many connections at most.
    pub most: u64,
    /// So many requests wait for a change at most.
    pub waiting: u64,
    /// A request is whole, and an answer taken, in so many seconds.
    pub idle: u64,
    /// No answer about the table has more bytes.
    pub most_answer: usize,
}

fn value<'a>(alloc: Global, name: &'a str, shown: &'a str, help: &'a str) -> Arg<'a> {
    Arg::new(alloc, name)
        .long(name)
        .value_name(shown)
        .action(ArgAction::Set)
        .help(help)
}

/// The words of `cuestored`, as `clap` is told of them.
pub fn command<'a>(alloc: Global) -> Result<Command<'a>, AllocError> {
    let command = Command::new(alloc, "cuestored")
        .version("0.1.0")
        .about("A site of the configuration store that stays up, over HTTP")
        .arg(
            value(alloc, "data", "DIR", "The folder of the journal")
                .value_parser(ValueParser::NonEmptyString)
                .required(true),
        )?
        .arg(value(alloc, "listen", "ADDRESS:PORT", "Where to listen").default_value(
            "127.0.0.1:8420",
        ))?
        .arg(value(
            alloc,
            "peer",
            "URL",
            "A site that is asked for what it accepted, http://NAME[:PORT]/[PATH/]; again for more",
        )
        .action(ArgAction::Append))?
        .arg(
            value(alloc, "every", "SECONDS", "How often a peer is asked")
                .value_parser(value_parser!(u64).range(1..86_400))
                .default_value("2"),
        )?
        .arg(value(
            alloc,
            "host",
            "NAME",
            "A host name that requests may name, without a port; again for more",
        )
        .action(ArgAction::Append))?
        .arg(
            value(alloc, "max-connections", "N", "The most connections")
                .value_parser(value_parser!(u64).range(1..1_000_000))
                .default_value("1000"),
        )?
        .arg(
            value(
                alloc,
                "max-waiting",
                "N",
                "The most requests that wait for a change",
            )
            .value_parser(value_parser!(u64).range(0..1_000_000))
            .default_value("500"),
        )?
        .arg(
            value(
                alloc,
                "idle",
                "SECONDS",
                "A request is whole, and an answer taken, in this time",
            )
            .value_parser(value_parser!(u64).range(1..86_400))
            .default_value("60"),
        )?;
    with_care(alloc, with_limit(alloc, with_tokens(alloc, command)?)?)
}

/// The option for the limit of answers.
fn with_limit<'a>(alloc: Global, command: Command<'a>) -> Result<Command<'a>, AllocError> {
    command.arg(value(
        alloc,
        "max-answer",
        "BYTES",
        "The most bytes of an answer about the table (67108864)",
    )
    .value_parser(value_parser!(u64).range(1024..4_294_967_296)))
}

/// What the program is asked to do.
#[derive(Clone, Copy)]
pub enum Task<'a> {
    Serve,
    /// Reads the files of a folder, and says whether they are sound.
    Check(&'a str),
    /// Puts what can be read of the files of the first folder into the second, a new one.
    Salvage(&'a str, &'a str),
}

/// What was asked for.
pub fn task_of<'a>(matches: &ArgMatches<'a>) -> Task<'a> {
    match (
        matches.get_str("check"),
        matches.get_str("salvage"),
        matches.get_str("into"),
    ) {
        (Some(folder), _, _) => Task::Check(folder),
        (None, Some(folder), Some(new)) => Task::Salvage(folder, new),
        (None, _, _) => Task::Serve,
    }
}

/// The options for tokens.
fn with_tokens<'a>(alloc: Global, command: Command<'a>) -> Result<Command<'a>, AllocError> {
    command
        .arg(value(
            alloc,
            "token-file",
            "FILE",
            "The tokens that may write: one, or lines OWNER TOKEN PATTERN..",
        ))?
        .arg(value(
            alloc,
            "read-token-file",
            "FILE",
            "The tokens that may only read, in the same form; without it anybody may read",
        ))?
        .arg(value(
            alloc,
            "peer-token-file",
            "FILE",
            "The one token that this site sends to its peers",
        ))
}

/// The options for damaged files.
fn with_care<'a>(alloc: Global, command: Command<'a>) -> Result<Command<'a>, AllocError> {
    command
        .arg(
            value(
                alloc,
                "check",
                "DIR",
                "Read the files of DIR, change nothing, and say whether they are sound",
            )
            .value_parser(ValueParser::NonEmptyString)
            .exclusive(true),
        )?
        .arg(
            value(
                alloc,
                "salvage",
                "DIR",
                "Put what can be read of damaged files of DIR into the folder of --into",
            )
            .value_parser(ValueParser::NonEmptyString)
            .requires_arg("into")?
            .conflicts_with("data")?,
        )?
        .arg(
            value(alloc, "into", "OUT", "A folder that --salvage makes")
                .value_parser(ValueParser::NonEmptyString)
                .requires_arg("salvage")?,
        )
}

/// The values of an option that may be given more than once.
fn all_of<'a>(
    alloc: Global,
    matches: &ArgMatches<'a>,
    name: &str,
) -> Result<Vec<&'a str>, AllocError> {
    let mut all = Vec::new(alloc);
    if let Some(given) = matches.get_strs(name) {
        for value in given {
            all.push(*value)?;
        }
    }
    Ok(all)
}

/// What was found of them.
pub fn words_of<'a>(alloc: Global, matches: &ArgMatches<'a>) -> Result<Settings<'a>> {
    Ok(Settings {
        data: matches.get_str("data").unwrap_or("."),
        listen: matches.get_str("listen").unwrap_or("127.0.0.1:8420"),
        peers: all_of(alloc, matches, "peer")?,
        token_file: matches.get_str("token-file"),
        read_token_file: matches.get_str("read-token-file"),
        peer_token_file: matches.get_str("peer-token-file"),
        hosts: all_of(alloc, matches, "host")?,
        every: matches.get_one::<u64>("every").unwrap_or(2),
        most: matches.get_one::<u64>("max-connections").unwrap_or(1000),
        waiting: matches.get_one::<u64>("max-waiting").unwrap_or(500),
        idle: matches.get_one::<u64>("idle").unwrap_or(60),
        most_answer: answer_limit(matches.get_one::<u64>("max-answer")),
    })
}

/// The first address that a name and a port have.
fn looked_up(rt: &HostRuntime, name: &str) -> Result<Option<SocketAddr>> {
    match name.to_socket_addrs(rt) {
        Ok(mut addresses) => Ok(addresses.next()),
        Err(error) => Err(SettingsError::system(rt.alloc(), "look up", name, error).into()),
    }
}

/// The peer that a URL names, as `http://NAME[:PORT]/[PATH/]`, which is asked with a token, if there is
/// one.
fn source_of(rt: &HostRuntime, url: &str, token: &Option<String>) -> Result<PullSource> {
    let alloc = rt.alloc();
    let uri = match Uri::from_str(alloc, url) {
        Ok(uri) => uri,
        Err(UriError::OutOfMemory) => return Err(SettingsError::OutOfMemory.into()),
        Err(UriError::Invalid(_)) => return Err(SettingsError::peer(alloc, url).into()),
    };
    let Some(host) = host_of(alloc, &uri)? else {
        return Err(SettingsError::peer(alloc, url).into());
    };
    let at = looked_up(rt, &host).unwrap_or(None);
    let prefix = String::from_str(alloc, uri.path().trim_end_matches('/'))?;
    let token = match token {
        Some(token) => Some(token.clone()?),
        None => None,
    };
    Ok(PullSource {
        host,
        at,
        prefix,
        token,
    })
}

/// The name and the port of a URL of a peer, where it is one. The port is 80 where none is named.
fn host_of(alloc: Global, uri: &Uri) -> Result<Option<String>, AllocError> {
    let (Some("http"), None, Some(host)) = (uri.scheme_str(), uri.query(), uri.host()) else {
        return Ok(None);
    };
    let Some(authority) = uri.authority() else {
        return Ok(None);
    };
    let rest = authority.as_str().strip_prefix(host);
    match (rest, uri.port_u16()) {
        (Some(""), _) => Ok(Some(format!(in alloc; "{host}:80")?)),
        (Some(_), Some(port)) => Ok(Some(format!(in alloc; "{host}:{port}")?)),
        _ => Ok(None),
    }
}

impl<'a> Settings<'a> {
    /// The address to listen on.
    pub fn listen(&self, rt: &HostRuntime) -> Result<SocketAddr> {
        match looked_up(rt, self.listen)? {
            Some(address) => Ok(address),
            None => Err(SettingsError::Listen.into()),
        }
    }

    /// The hosts that requests may name at a site that listens on this address: the address, the
    /// name that it was given by, those of loopback, and those that were given. Where the site
    /// listens on all addresses, requests may name each.
    pub fn doors(&self, alloc: Global, listen: SocketAddr) -> Result<Doors> {
        let mut hosts = Vec::new(alloc);
        for host in ["localhost", "127.0.0.1", "[::1]"] {
            hosts.push(String::from_str(alloc, host)?)?;
        }
        hosts.push(match listen {
            SocketAddr::V4(address) => format!(in alloc; "{}", address.ip())?,
            SocketAddr::V6(address) => format!(in alloc; "[{}]", address.ip())?,
        })?;
        if let Some((name, _)) = self.listen.rsplit_once(':') {
            hosts.push(String::from_str(alloc, name)?)?;
        }
        for host in &self.hosts {
            hosts.push(String::from_str(alloc, host)?)?;
        }
        Ok(Doors {
            hosts,
            any_address: listen.ip().is_unspecified(),
        })
    }

    /// The peers. One whose name has no address is a peer all the same: it is looked up again as it is
    /// asked.
    ///
    /// # Errors
    ///
    /// The first that is no such URL, or out of memory.
    pub fn sources(&self, rt: &HostRuntime, token: &Option<String>) -> Result<Vec<PullSource>> {
        let mut sources = Vec::new(rt.alloc());
        for peer in &self.peers {
            sources.push(source_of(rt, peer, token)?)?;
        }
        Ok(sources)
    }

    /// What one process takes on.
    pub fn bounds(&self) -> Bounds
        ensures most { result.most ≡ self.now.most }
        ensures waiting { result.waiting ≡ self.now.waiting }
        ensures body { result.config.max_body_len ≡ 67_108_864 }
        ensures pending { result.config.max_pending ≡ 262_144 }
        ensures idle { as_nanos result.idle ≡ self.now.idle * 1_000_000_000 }
        ensures every { as_nanos result.every ≡ self.now.every * 1_000_000_000 }
    {
        let config = Config {
            max_body_len: MOST_BODY,
            max_pending: MOST_PENDING,
            ..Config::default()
        };
        Bounds {
            config,
            idle: Duration::from_secs(self.idle),
            most: self.most as usize,
            waiting: self.waiting as usize,
            every: Duration::from_secs(self.every),
        }
    }
}
