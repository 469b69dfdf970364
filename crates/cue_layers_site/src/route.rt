//! What a request asks of the layers.
ghost use Rattle.std.specs.Prelude.{◌≡◌, ◌++◌, ℕ, List, IfOk, IfSome, IfNone};
ghost use Rattle.cue_layers_site.specs.Requests.{IsNameIn, IsNamePath, IsLayersRoute, name_prefix};
ghost use Rattle.cue_layers_site.specs.Inner.Routes.{IsReadPath};

use bytes::Bytes;
use cue_layers::{LayerKind, Memory};
use cue_replica::SiteQuestion;
use http::Request;
use percent_encoding::percent_decode;
use std::alloc::Global;

/// What a request asks of the layers.
#[derive(Clone, Copy, Debug, PartialEq, Eq)]
pub enum LayersRoute {
    /// To put what the owner of a name says.
    Put(LayerKind),
    /// To remove it.
    Remove(LayerKind),
    /// Which names there are.
    Names(LayerKind),
    /// What the owner of a name says.
    Show(LayerKind),
    /// A question about the view.
    View(SiteQuestion),
    /// The whole map.
    Sync,
    /// To join a map.
    Join,
}

/// Of which kind the name in a path is.
fn kind_in(path: &str) -> Option<LayerKind>
    ensures some { IfSome result (λ kind. IsNamePath kind path.now) }
    ensures none { IfNone result ((kind : LayerKind) → ¬ IsNamePath kind path.now) }
{
    if path.starts_with("/layers/") {
        return Some(LayerKind::Layer);
    }
    if path.starts_with("/policies/") {
        return Some(LayerKind::Policy);
    }
    None
}

/// What is read at a path.
fn read_route(path: &str) -> Option<LayersRoute>
    ensures some { IfSome result (λ route. IsReadPath route path.now) }
    ensures none { IfNone result ((route : LayersRoute) → ¬ IsReadPath route path.now) }
{
    match path {
        "/layers" => Some(LayersRoute::Names(LayerKind::Layer)),
        "/policies" => Some(LayersRoute::Names(LayerKind::Policy)),
        "/export" => Some(LayersRoute::View(SiteQuestion::Export)),
        "/report" => Some(LayersRoute::View(SiteQuestion::Report)),
        "/print" => Some(LayersRoute::View(SiteQuestion::Print)),
        "/sync" => Some(LayersRoute::Sync),
        _ => match kind_in(path) {
            Some(kind) => Some(LayersRoute::Show(kind)),
            None => None,
        },
    }
}

/// What a request asks of the layers, if anything.
pub(crate) fn layers_route(request: &Request<Bytes>) -> Option<LayersRoute>
    ensures some { IfSome result (λ route. IsLayersRoute route request.now) }
    ensures none { IfNone result ((route : LayersRoute) → ¬ IsLayersRoute route request.now) }
{
    let path = request.uri().path();
    match request.method().as_str() {
        "PUT" => match kind_in(path) {
            Some(kind) => Some(LayersRoute::Put(kind)),
            None => None,
        },
        "DELETE" => match kind_in(path) {
            Some(kind) => Some(LayersRoute::Remove(kind)),
            None => None,
        },
        "POST" => match path {
            "/sync" => Some(LayersRoute::Join),
            _ => None,
        },
        "GET" => read_route(path),
        "HEAD" => read_route(path),
        _ => None,
    }
}

/// What stands behind the prefix of a kind in a path.
fn behind_prefix(kind: LayerKind, path: &[u8]) -> Option<&[u8]>
    ensures { IfSome result (λ rest. path.now ≡ name_prefix kind ++ rest.now) }
{
    match kind {
        LayerKind::Layer => path.strip_prefix(b"/layers/"),
        LayerKind::Policy => path.strip_prefix(b"/policies/"),
    }
}

/// The name in the path of a request, decoded.
pub(crate) fn name_in(
    alloc: Global,
    kind: LayerKind,
    request: &Request<Bytes>,
) -> Result<Option<Vec<u8>>, Memory>
    ensures { IfOk result (λ found. IfSome found (λ name. IsNameIn kind request.now name.items)) }
{
    let path = request.uri().path().as_bytes();
    match behind_prefix(kind, path) {
        None => Ok(None),
        Some(spelled) => {
            let mut name = Vec::new(alloc);
            percent_decode(spelled).append_to(&mut name)?;
            Ok(Some(name))
        }
    }
}
