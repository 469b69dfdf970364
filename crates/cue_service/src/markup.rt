//! The page's own texts, and others that are shown in it.
ghost use Rattle.std.specs.Prelude.{OnOk, string_bytes};
ghost use Rattle.cue_service.specs.Pages.{IsMarkup, IsPage};

use crate::escapes::add_escaped;
use cue_lattice::Memory;
use std::str;

/// A text of the page's own.
#[derive(Clone, Copy)]
pub(crate) enum Markup {
    Head,
    Conflicts,
    Incomplete,
    NoFaults,
    Known,
    EndOfLines,
    Peers,
    NoPeers,
    Table,
    Peer,
    Cell,
    EndOfPeer,
    EndOfTable,
    Foot,
}

impl Markup {
    fn text(self) -> &'static str
        ensures { IsMarkup result.now }
    {
        match self {
            Markup::Head => {
                "<!doctype html>\n<html lang=\"en\"><head><meta charset=\"utf-8\"><title>cuestored</title>\n<style>body{font-family:sans-serif;margin:2em auto;max-width:60em;padding:0 1em}pre{background:#f4f4f4;padding:1em;overflow:auto}.bad{background:#fde8e8}.open{background:#fdf5dd}td{padding:0 1em 0 0}</style></head><body>\n<h1>cuestored</h1>\n"
            }
            Markup::Conflicts => "<h2>Conflicts</h2>\n<pre class=\"bad\">",
            Markup::Incomplete => "<h2>Incomplete</h2>\n<pre class=\"open\">",
            Markup::NoFaults => "<p>No conflicts, and nothing is incomplete.</p>\n",
            Markup::Known => "<h2>What is known</h2>\n<pre>",
            Markup::EndOfLines => "</pre>\n",
            Markup::Peers => "<h2>Peers</h2>\n",
            Markup::NoPeers => "<p>None.</p>\n",
            Markup::Table => "<table>\n",
            Markup::Peer => "<tr><td>",
            Markup::Cell => "</td><td>",
            Markup::EndOfPeer => "</td></tr>\n",
            Markup::EndOfTable => "</table>\n",
            Markup::Foot => {
                "<p><a href=\"/export\">export</a> <a href=\"/report\">report</a> <a href=\"/print\">text</a> <a href=\"/metrics\">metrics</a></p>\n</body></html>\n"
            }
        }
    }
}

/// Adds a text of the page's own.
pub(crate) fn add_markup(page: &mut String, part: Markup) -> Result<(), Memory>
    ensures { OnOk result (IsPage (string_bytes page.old) → IsPage (string_bytes page.new)) }
{
    page.push_str(part.text())?;
    Ok(())
}

/// Adds any other text, as a browser shows it. Bytes that are no text are left out.
pub(crate) fn add_text(page: &mut String, bytes: &[u8]) -> Result<(), Memory>
    ensures { OnOk result (IsPage (string_bytes page.old) → IsPage (string_bytes page.new)) }
{
    match str::from_utf8(bytes) {
        Ok(text) => add_escaped(page, text),
        Err(_) => Ok(()),
    }
}
