//! A settings text, from its bytes to what it sets.

ghost use Rattle.toml.specs.Parse.{parse_document};
ghost use Rattle.toml.specs.View.{table_view};
ghost use Rattle.settings_text.specs.Rows.{document_of};
ghost use Rattle.settings_text.specs.Document.{Settles, checked_document, keyed_document, parsed_document, document_of_text};

use crate::fault::{SettingsFault, text_fault};
use crate::fields::FieldFault;
use crate::rows::document;
use crate::users::Users;
use settings::{CheckedSettings, Settings};
use std::alloc::Global;
use std::fmt;
use std::marker::Model;
use std::str::from_utf8;
use toml::Table;
use wire_types::{Items, Text};

/// A user who may log in.
#[derive(Drop)]
pub struct User {
    pub name: Text,
    pub password: Text,
}

/// Written out, so that no password is shown.
impl fmt::Debug for User {
    /// Writes the user's name, and leaves out the password.
    fn fmt<W: fmt::Write>(&self, f: &mut fmt::Formatter<W>) -> fmt::Result {
        write!(f, "User {{ name: {:?}, .. }}", self.name)
    }
}

/// What a settings text sets: the users, and the settings of the core.
#[derive(Debug, Drop)]
pub struct Document {
    pub users: Users,
    pub settings: CheckedSettings,
}

/// What a settings text says, before its users and settings are checked.
#[derive(Drop)]
pub(crate) struct UncheckedDocument {
    pub(crate) users: Items<User>,
    pub(crate) settings: Settings,
}

impl Model for UncheckedDocument {
    ghost use Rattle.settings_text.specs.declared.document.Document.{Document};

    ghost Value = { Document };

    ghost view = { λ u. record { users = u.users; settings = u.settings } };
}

/// Checks the users and the settings of a document. The error is the first fault of the users, or else of the settings; or
/// `NoMemory`.
fn settle(alloc: Global, document: UncheckedDocument) -> Result<Document, SettingsFault>
    ensures { Settles (checked_document document) result }
{
    let UncheckedDocument { users, settings } = document;
    let users = match Users::new(alloc, users) {
        Ok(users) => users,
        Err(fault) => return Err(fault),
    };
    match CheckedSettings::of(settings) {
        Ok(settings) => Ok(Document { users, settings }),
        Err(fault) => Err(text_fault(fault)),
    }
}

/// Reads and checks the document that a TOML table holds. The error is its first fault: of its keys (`Key`), its users or its
/// settings; or `NoMemory`.
fn document_of_table(alloc: Global, table: &Table) -> Result<Document, SettingsFault>
    ensures { Settles (keyed_document (document_of (table_view table.now))) result }
{
    match document(alloc, table) {
        Ok(document) => settle(alloc, document),
        Err(FieldFault::Key) => Err(SettingsFault::Key),
        Err(FieldFault::NoMemory) => Err(SettingsFault::NoMemory),
    }
}

/// Reads and checks the document that a text holds. The error is `Toml` if the text is no TOML, or else the first fault; or
/// `NoMemory`.
fn document_of_str(alloc: Global, text: &str) -> Result<Document, SettingsFault>
    ensures { Settles (parsed_document (parse_document text.now)) result }
{
    match toml::table_from_str(alloc, text) {
        Ok(table) => document_of_table(alloc, &table),
        Err(error) => {
            if error.is_memory() {
                Err(SettingsFault::NoMemory)
            } else {
                Err(SettingsFault::Toml)
            }
        }
    }
}

/// Reads and checks a settings text. Returns its users and settings, or its first fault, which is `Toml` if the text isn't
/// UTF-8 or no TOML. An allocation failure gives `NoMemory` in place of any.
pub fn document_of_text(alloc: Global, text: &[u8]) -> Result<Document, SettingsFault>
    ensures { Settles (document_of_text text.now) result }
{
    match from_utf8(text) {
        Ok(text) => document_of_str(alloc, text),
        Err(_) => Err(SettingsFault::Toml),
    }
}
