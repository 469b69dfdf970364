//! Token files, and what the tokens of a file may write.

use cue_owners::{Access, Owners, TokenFileError, sole_token};
use std::alloc::Global;
use std::test::Fail;

/// Two owners, with lines without words around their lines.
pub const OWNERS: &[u8] =
    b"\nweb s3cret commons layers/web layers/web/*\n\r\nsec k3y policies/* sync\n\n";

/// Who may write what with this field of `Authorization`: the owner, or `401` or `403`.
fn access<'a>(owners: &'a Owners, field: &[u8], target: &[u8]) -> &'a str {
    match owners.access(field, target) {
        Access::Unknown => "401",
        Access::Barred => "403",
        Access::Allowed(owner) => owner,
    }
}

/// A field, a target, and who may write it.
type Row = (&'static [u8], &'static [u8], &'static str);

const RIGHTS: &[Row] = &[
    (b"Bearer s3cret", b"commons", "web"),
    (b"bearer s3cret", b"layers/web", "web"),
    (b"BEARER s3cret", b"layers/web/eu", "web"),
    (b"Bearer s3cret", b"layers/web2", "403"),
    (b"Bearer s3cret", b"policies/tls", "403"),
    (b"Bearer k3y", b"policies/tls", "sec"),
    (b"Bearer k3y", b"sync", "sec"),
    (b"Bearer k3y", b"commons", "403"),
    (b"Bearer s3cre", b"commons", "401"),
    (b"Bearer s3crets", b"commons", "401"),
    (b"Bearer  s3cret", b"commons", "401"),
    (b"Bearer s3cret ", b"commons", "401"),
    (b"Basic s3cret", b"commons", "401"),
    (b"s3cret", b"commons", "401"),
    (b"Bearer ", b"commons", "401"),
    (b"", b"commons", "401"),
];

#[test]
fn lines_say_who_may_write_what(rt: HostRuntime) -> Result<(), Fail> {
    let owners = Owners::read(rt.alloc(), OWNERS)?;
    for (i, (field, target, who)) in RIGHTS.iter().enumerate() {
        assert!(rt; access(&owners, field, target) == *who, "row {i}");
        assert!(rt; owners.knows(field) == (*who != "401"), "row {i}");
        let may = *who == "web" || *who == "sec";
        assert!(rt; owners.lets_write(field, target) == may, "row {i}");
    }
    Ok(())
}

#[test]
fn one_token_may_write_all(rt: HostRuntime) -> Result<(), Fail> {
    let owners = Owners::read(rt.alloc(), b" s3cret!\r\n")?;
    assert!(rt; access(&owners, b"Bearer s3cret!", b"policies/tls") == "*");
    assert!(rt; access(&owners, b"Bearer s3cret", b"policies/tls") == "401");
    Ok(())
}

/// Why a token file is refused, and `None` where it is not.
fn refusal_of(alloc: Global, text: &[u8]) -> Option<TokenFileError> {
    match Owners::read(alloc, text) {
        Ok(_) => None,
        Err(why) => Some(why),
    }
}

const WRONG: &[(&[u8], usize)] = &[
    (b"web s3cret", 1),
    (b"open sesame\n", 1),
    (b"\nweb s3cret commons\n\nsec k3y\n", 4),
    (b"web s3cret common", 1),
    (b"web s3cret layers/", 1),
    (b"web s3cret layers/w*", 1),
    (b"web s3cret metrics", 1),
    (b"w=b s3cret commons", 1),
    (b"web s3cr\xC3\xA9t commons", 1),
    (b"web s3cret commons\nsec s3cret sync", 2),
    (b"# tokens of the team\nweb s3cret commons", 1),
    (b"s3cr\xC3\xA9t", 1),
];

#[test]
fn files_of_other_forms_are_refused_with_their_line(rt: HostRuntime) -> Result<(), Fail> {
    for (i, (text, line)) in WRONG.iter().enumerate() {
        assert!(rt;
            refusal_of(rt.alloc(), text) == Some(TokenFileError::Line(*line)),
            "row {i}"
        );
    }
    for text in [b"".as_slice(), b" \r\n\n"] {
        assert!(rt; refusal_of(rt.alloc(), text) == Some(TokenFileError::Empty));
    }
    let said = format!(in rt.alloc(); "{}", TokenFileError::Line(4))?;
    let right = "line 4 is not OWNER TOKEN PATTERN.., or has the token of an earlier line";
    assert!(rt; said.as_str() == right);
    Ok(())
}

/// The length of the token that a text is.
fn sole_length(alloc: Global, text: &[u8]) -> Result<Option<usize>, Fail> {
    match sole_token(alloc, text)? {
        None => Ok(None),
        Some(token) => Ok(Some(token.len())),
    }
}

#[test]
fn a_peer_has_one_token(rt: HostRuntime) -> Result<(), Fail> {
    assert!(rt; sole_length(rt.alloc(), b"s3cret\n")? == Some(6));
    assert!(rt; sole_length(rt.alloc(), b"web s3cret sync")? == None);
    assert!(rt; sole_length(rt.alloc(), b"\n")? == None);
    Ok(())
}
