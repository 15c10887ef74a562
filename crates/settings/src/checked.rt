//! Settings that were checked, so that nobody after the check has to look for a fault again.

ghost use Rattle.std.specs.Prelude.{◌≡◌, Some, None, IfOk, IfErr, OnOk};
ghost use Rattle.settings.specs.Fault.{first_fault};

use crate::fault::{OpenFault, first_fault};
use crate::settings::Settings;
use std::marker::Model;

/// Settings in which `first_fault` finds nothing. Contracts see them as the settings.
#[derive(Debug)]
pub struct CheckedSettings {
    settings: Settings,
}

impl Model for CheckedSettings {
    ghost use Rattle.std.specs.Prelude.{◌≡◌, None};
    ghost use Rattle.settings.specs.declared.settings.Settings.{Settings};
    ghost use Rattle.settings.specs.Fault.{first_fault};

    ghost Value = { Settings };

    ghost view = { λ c. c.settings };

    ghost invariant = { λ c. first_fault c.settings ≡ None };
}

impl Drop for CheckedSettings {
    fn drop(self) {
        let CheckedSettings {
            settings: _settings,
        } = self;
    }
}

impl CheckedSettings {
    /// Checks settings, and returns their first fault, in the order of `OpenFault`, if they have one; then they are dropped. It
    /// allocates nothing.
    pub fn of(settings: Settings) -> Result<CheckedSettings, OpenFault>
        ensures ok { IfOk result (λ checked. checked ≡ settings) }
        ensures faultless { OnOk result (first_fault settings ≡ None) }
        ensures fault { IfErr result (λ fault. first_fault settings ≡ Some fault) }
    {
        match first_fault(&settings) {
            Some(fault) => Err(fault),
            None => Ok(CheckedSettings { settings }),
        }
    }

    /// The settings, which have no fault.
    pub fn settings(&self) -> &Settings
        ensures value { result.now ≡ self.now }
        ensures faultless { first_fault result.now ≡ None }
    {
        &self.settings
    }

    /// Takes the settings out.
    pub fn into_settings(self) -> Settings
        ensures value { result ≡ self }
        ensures faultless { first_fault result ≡ None }
    {
        let CheckedSettings { settings } = self;
        settings
    }
}
