//! An api in a version.

ghost use Rattle.std.specs.Prelude.{◌≡◌, true};
ghost use Rattle.msg_admin.specs.ApiKey.{is_served};
ghost use Rattle.msg_admin.specs.Api.{is_flexible, api_at, api_if_served, in_last_version};

use crate::api_key::ApiKey;
use std::marker::Model;

/// An API in a version in which it is served; no other pair can be made.
#[derive(Clone, Copy, Debug, PartialEq, Eq)]
pub struct Api {
    pub(crate) key: ApiKey,
    pub(crate) version: i16,
}

impl Model for Api {
    ghost use Rattle.std.specs.Prelude.{◌≡◌, true};
    ghost use Rattle.msg_admin.specs.ApiKey.{VersionedKey, is_served};

    ghost Value = { VersionedKey };

    ghost view = { λ a. record { key = a.key; version = a.version } };

    ghost invariant = { λ a. is_served a.key a.version ≡ true };

    ghost inverse = { λ v. record { key = v.key; version = v.version } };
}

impl Api {
    /// The API with this key on the wire, in this version. None if it isn't served, or not in this version.
    #[tactic(auto, unfolding(crate::specs::Api::api_at))]
    pub fn of(number: i16, version: i16) -> Option<Api>
        ensures { result ≡ api_at number version }
    {
        match ApiKey::of(number) {
            Some(key) => Api::in_version(key, version),
            None => None,
        }
    }

    /// The API in this version; None if it isn't served in it.
    pub fn in_version(key: ApiKey, version: i16) -> Option<Api>
        ensures { result ≡ api_if_served key version }
    {
        if key.serves(version) {
            Some(Api { key, version })
        } else {
            None
        }
    }

    /// The API in the last version that is served.
    pub fn in_last_version(key: ApiKey) -> Api
        ensures { result ≡ in_last_version key }
    {
        Api {
            key,
            version: key.served().last,
        }
    }

    /// Which api it is, whatever the version.
    pub fn key(self) -> ApiKey
        ensures { result ≡ self.key }
    {
        self.key
    }

    /// The version, which is one that is served.
    pub fn version(self) -> i16
        ensures value { result ≡ self.version }
        ensures served { is_served self.key result ≡ true }
    {
        self.version
    }

    /// Whether the version is flexible (KIP-482): its headers end with tagged fields. ApiVersions, whose response header never
    /// has them, is served in version 0 only.
    #[tactic(auto, unfolding(crate::specs::Api::is_flexible))]
    pub fn is_flexible(self) -> bool
        ensures { result ≡ is_flexible self }
    {
        match self.key.served().flexible_from {
            Some(first) => first <= self.version,
            None => false,
        }
    }
}
