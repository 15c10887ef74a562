//! A session's states. The call that leaves a state uses it up, so that nobody asks before a login, and no session tries two
//! passwords.

ghost use Rattle.std.specs.Prelude.{◌≡◌, IfOk, MatchResult, true, false};
ghost use Rattle.audit_trail.specs.declared.event.Event.TheVariants.{Ask};
ghost use Rattle.sasl_login.specs.LoginMessage.{is_plain, login_of, principal_of};
ghost use Rattle.sasl_login.specs.Logins.{is_known, mechanism_unknown, LogsIn};

use crate::login_message::{principal_of, user_of};
use acl_binding::Caller;
use audit_trail::Event;
use msg_admin::{Header, Request};
use settings_text::{User, Users};
use std::alloc::{AllocError, Global};
use std::marker::Model;
use thiserror::Error;
use wire_types::{ErrorCode, Shared, Text};

/// The error with which a session is closed whose SaslHandshake or login fails.
#[derive(Clone, Copy, Debug, PartialEq, Eq, Error)]
#[error("the session is closed, since the login failed")]
pub struct Closed(pub ErrorCode);

/// Why a login fails.
#[derive(Clone, Copy, Debug, PartialEq, Eq, Error)]
pub enum LoginFault {
    /// The message isn't a PLAIN message that logs a user in: it is malformed, names no user with the right password, or its
    /// authzid is neither empty nor the name.
    #[error(transparent)]
    Closed(Closed),
    /// Memory was refused for the principal's name, its host, or the caller that is made of both.
    #[error("there is not enough memory for the principal's name")]
    NoMemory,
}

/// A session in which no mechanism was agreed on yet.
#[derive(Debug, Drop)]
pub struct Fresh(());

/// A session in which the mechanism PLAIN was agreed on, and nobody has logged in.
#[derive(Debug, Drop)]
pub struct Offered(());

/// A principal, kept with the host from which it logged in: the caller that its events share. Its value in contracts is the
/// principal's name alone.
#[derive(Debug)]
struct Principal {
    caller: Shared<Caller>,
}

impl Model for Principal {
    ghost use Rattle.std.specs.Prelude.{List, ℕ};

    ghost Value = { List ℕ };

    ghost view = { λ p. p.caller.who };
}

impl Drop for Principal {
    fn drop(self) {
        let Principal { caller: _caller } = self;
    }
}

impl Principal {
    /// The principal `User:NAME` of a user who logs in from this host. The error is an allocation failure.
    fn of(alloc: Global, user: &User, host: &Text) -> Result<Principal, AllocError>
        ensures { IfOk result (λ principal. principal ≡ principal_of user.now) }
    {
        let who = principal_of(alloc, user)?;
        let host = host.clone()?;
        Ok(Principal {
            caller: Shared::new(alloc, Caller { who, host })?,
        })
    }

    /// The principal's name, `User:NAME`.
    fn who(&self) -> &Text
        ensures { result.now ≡ self.now }
    {
        &self.caller.value().who
    }

    /// The principal as a caller from this host. Where it logged in from there, the caller is shared, and nothing is copied. The
    /// error is an allocation failure.
    fn at(&self, alloc: Global, host: &Text) -> Result<Shared<Caller>, AllocError>
        ensures { IfOk result (λ caller. caller ≡ record { who = self.now; host = host.now }) }
    {
        if self.caller.value().host == *host {
            return self.caller.share();
        }
        let who = self.who().clone()?;
        let host = host.clone()?;
        Ok(Shared::new(alloc, Caller { who, host })?)
    }
}

/// A session whose user told the right password.
#[derive(Debug, Drop)]
pub struct Known {
    who: Principal,
}

/// How far the login went.
#[derive(Drop)]
pub enum SessionState {
    Fresh(Fresh),
    Offered(Offered),
    Known(Known),
}

impl SessionState {
    /// Whether the session's user has logged in.
    pub fn is_known(&self) -> bool
        ensures { result ≡ is_known self.now }
    {
        match self {
            SessionState::Known(_) => true,
            _ => false,
        }
    }
}

impl Fresh {
    /// The state of a session that begins: no mechanism was agreed on.
    pub fn new() -> Fresh {
        Fresh(())
    }

    /// Agrees on the mechanism PLAIN (RFC 4616), the only one that is offered. Any other name gives UNSUPPORTED_SASL_MECHANISM
    /// (33), for the caller to close the session; the state is used up either way.
    pub fn offer(self, mechanism: &[u8]) -> Result<Offered, Closed>
        ensures { MatchResult result (λ _. is_plain mechanism.now ≡ true)
            (λ closed. (is_plain mechanism.now ≡ false) × (closed ≡ mechanism_unknown)) }
    {
        let Fresh(()) = self;
        if mechanism == b"PLAIN".as_slice() {
            Ok(Offered(()))
        } else {
            Err(Closed(ErrorCode::UnsupportedSaslMechanism))
        }
    }
}

impl Offered {
    /// Logs in from `host` the user whom a PLAIN message `[authzid] NUL authcid NUL passwd` (RFC 4616, section 2) names with the
    /// right password; authzid must be empty or the authcid. Any other message gives `Closed` with SASL_AUTHENTICATION_FAILED
    /// (58), for the caller to close the session; an allocation failure gives `NoMemory`. The state is used up either way.
    pub fn login(
        self,
        alloc: Global,
        users: &Users,
        host: &Text,
        message: &[u8],
    ) -> Result<Known, LoginFault>
        ensures { LogsIn (login_of users.now message.now) result }
    {
        let Offered(()) = self;
        match user_of(users, message) {
            Some(user) => match Principal::of(alloc, user, host) {
                Ok(who) => Ok(Known { who }),
                Err(_) => Err(LoginFault::NoMemory),
            },
            None => Err(LoginFault::Closed(Closed(ErrorCode::SaslAuthenticationFailed))),
        }
    }
}

impl Known {
    /// The principal of the user who has logged in, `User:NAME`.
    pub fn who(&self) -> &Text
        ensures { result.now ≡ self.now.who }
    {
        self.who.who()
    }

    /// The event by which a core answers a request of this user from this host. The error is an allocation failure.
    pub fn ask(
        &self,
        alloc: Global,
        host: &Text,
        header: Header,
        request: Request,
    ) -> Result<Event, AllocError>
        ensures { IfOk result
            (λ event. event ≡ Ask (record { who = self.now.who; host = host.now }) header.client
            request) }
    {
        let caller = self.who.at(alloc, host)?;
        Event::ask(alloc, caller, header.client, request)
    }
}
