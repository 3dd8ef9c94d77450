//! Sessions that write.

ghost use Rattle.std.specs.Prelude.{◌≡◌, true};
ghost use Rattle.ice_ids.specs.Drawing.{drawn12, after12};
ghost use Rattle.session.specs.Sessions.{branch_of, version_of, writes};

use ice_base::RefName;
use ice_ids::Id12;
use session::Session;
use std::marker::Model;
use store_api::Version;

/// A session that was opened to write.
#[derive(Drop)]
pub struct Writer {
    session: Session,
}

impl Model for Writer {
    ghost use Rattle.std.specs.Prelude.{◌≡◌, true};
    ghost use Rattle.session.specs.Sessions.{SessionState, writes};
    ghost use Rattle.session.specs.Codes.{coded_session};

    ghost Value = { SessionState };

    ghost coded = { coded_session };

    ghost view = { λ w. w.session };

    ghost invariant = { λ w. writes w.session ≡ true };
}

impl Writer {
    /// Takes a session that was opened to write.
    pub fn new(session: Session) -> Writer
        requires { writes session ≡ true }
        ensures { result ≡ session }
    {
        Writer { session }
    }

    /// The session.
    pub fn as_session(&self) -> &Session
        ensures { result.now ≡ self.now }
    {
        &self.session
    }

    /// The branch that it writes to.
    pub fn branch(&self) -> &RefName
        ensures { result.now ≡ branch_of self.now }
    {
        self.session.branch()
    }

    /// The version at which its branch named its base.
    pub fn version(&self) -> Version
        ensures { result.0 ≡ version_of self.now }
    {
        self.session.version()
    }

    /// Draws an object id; None where none is left.
    pub fn draw(&mut self) -> Option<Id12>
        ensures drawn { result ≡ drawn12 self.old.ids }
        ensures after { self.new ≡ record self.old { ids = after12 self.old.ids } }
    {
        self.session.draw()
    }

    /// Gives its branch back.
    pub fn into_branch(self) -> RefName
        ensures { result ≡ branch_of self }
    {
        self.session.into_branch()
    }

    /// Gives the session back.
    pub fn into_session(self) -> Session
        ensures { result ≡ self }
    {
        self.session
    }
}
