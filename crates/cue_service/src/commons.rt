ghost use Rattle.std.specs.Prelude.{◌≡◌, ◌↔◌, ℕ, List, IsTrue};
ghost use Rattle.http.specs.declared.request.Request.{Request};
ghost use Rattle.cue_replica.specs.Language.{Table};

use crate::access::may_write;
use crate::site::Site;
use bytes::Bytes;
use cue_replica::Replica;
use http::Request;
use sqlite_disk::Disk;

/// A service that serves a table to which sites only add, and says who may write.
pub trait ServesCommons {
    // The table.
    ghost commons: { Self → Table };

    // Who sent the request may write.
    ghost lets_write: { Self → Request (List ℕ) → Type 0 };

    /// The table, as a site.
    fn commons(&self) -> &Replica
        ensures { result.now ≡ commons self.now };

    /// Whether who sent a request may write.
    fn may_write(&self, request: &Request<Bytes>) -> bool
        ensures { IsTrue result ↔ lets_write self.now request.now };
}

impl<D: Disk> ServesCommons for Site<D> {
    ghost use Rattle.cue_service.specs.Access.{MayWrite};

    ghost commons = { λ site. site.desk.board };

    ghost lets_write = { λ site request. MayWrite site.desk.rules.token request };

    fn commons(&self) -> &Replica {
        self.desk.board.table()
    }

    fn may_write(&self, request: &Request<Bytes>) -> bool {
        may_write(&self.desk.rules.token, request)
    }
}
