//! Settings in, a core out: what a server is started with.

ghost use Rattle.std.specs.Prelude.{◌≡◌, IfOk, IfErr, IfSome, length};
ghost use Rattle.byte_streams.specs.Device.{TakesWithin};
ghost use Rattle.request_handlers.specs.Core.{first_core};
ghost use Rattle.commands.specs.Check.{settings_answer, check_answer};
ghost use Rattle.commands.specs.Opened.{Opens, OpensOr};

use crate::cause::Early;
use crate::run::{Place, end_early, explain, refuse};
use byte_streams::{InputFault, read_input};
use request_handlers::Core;
use session_pool::Users;
use settings_text::{Document, SettingsFault, document_of_text, warnings};
use std::alloc::Global;
use std::hash::RandomState;
use std::io::{Read, Write};
use wire_types::Shared;

/// What a server is started with: a core that has answered nothing, and who may log in.
#[derive(Drop)]
pub struct Opened {
    pub core: Core,
    pub users: Shared<Users>,
    /// How many bindings the settings have.
    pub bindings: usize,
}

/// Why no core is opened.
#[derive(Clone, Copy, Debug, PartialEq, Eq)]
pub(crate) enum Unopened {
    /// The settings are refused, and that is printed.
    Refused,
    /// A read, a write or an allocation failed, or the input is too long. A refusal of the settings isn't printed whole.
    Early(Early),
}

impl From<Early> for Unopened {
    ghost use Rattle.std.specs.Prelude.{◌≡◌};
    ghost use Rattle.commands.specs.declared.open.Unopened.TheVariants.{Early as EarlyOne};

    ghost from_gives = { λ early unopened. unopened ≡ EarlyOne early };

    /// What failed is kept as it is.
    fn from(early: Early) -> Unopened {
        Unopened::Early(early)
    }
}

/// Prints to `errors` warnings of settings that are allowed but probably a mistake: one for each kind of mistake (see
/// `settings_text::warnings`). That an allocation or a write fails isn't reported.
pub(crate) fn warn<E: Write>(alloc: Global, document: &Document, errors: &mut E) {
    if let Ok(sentences) = warnings(alloc, document) {
        for sentence in sentences.as_slice() {
            let sentence = sentence.as_str();
            if let Ok(warning) = format!(in alloc; "warning: {sentence}") {
                explain(alloc, errors, Place::Settings, warning.as_str());
            }
        }
    }
}

/// Reads settings, prints warnings about them, and opens a core with them, whose tables hash by `hasher`. Where they are refused,
/// it prints `settings refused: FAULT` to `writer`, and why to `errors`. `Early` is an allocation failure, or a failed write of
/// that line.
#[tactic(auto, using(crate::proofs::OpenLemmas::is_of, crate::proofs::OpenLemmas::refused_opens))]
fn open_settings<W: Write, E: Write>(
    alloc: Global,
    hasher: RandomState,
    input: &[u8],
    writer: &mut W,
    errors: &mut E,
) -> Result<Opened, Unopened>
    ensures core { IfOk result (λ o. o.core ≡ first_core o.core.settings) }
    ensures bindings { IfOk result (λ o. o.bindings ≡ length o.core.settings.acls) }
    ensures opens { Opens (W.contents writer.old) (W.contents writer.new) input.now
        (settings_answer input.now) result }
{
    let document = match document_of_text(alloc, input) {
        Ok(document) => document,
        Err(SettingsFault::NoMemory) => return Err(Unopened::Early(Early::Settings)),
        Err(fault) => {
            refuse(alloc, input, fault, writer, errors)?;
            return Err(Unopened::Refused);
        }
    };
    warn(alloc, &document, errors);
    let Document { users, settings } = document;
    let bindings = settings.settings().acls.len();
    let Ok(users) = Shared::new(alloc, users) else {
        return Err(Unopened::Early(Early::Settings));
    };
    match Core::checked_with_hasher(alloc, settings, hasher) {
        Ok(core) => Ok(Opened {
            core,
            users,
            bindings,
        }),
        Err(_) => Err(Unopened::Early(Early::Settings)),
    }
}

/// As `open_settings`, of all that the reader gives. `Early` is then also a failed read, or an input that is too long.
fn open_whole<R: Read, W: Write, E: Write>(
    alloc: Global,
    hasher: RandomState,
    reader: &mut R,
    writer: &mut W,
    errors: &mut E,
) -> Result<Opened, Unopened>
    ensures core { IfOk result (λ o. o.core ≡ first_core o.core.settings) }
    ensures bindings { IfOk result (λ o. o.bindings ≡ length o.core.settings.acls) }
    ensures opens { IfSome (R.remaining reader.old)
        (λ input. Opens (W.contents writer.old) (W.contents writer.new) input (check_answer input)
        result) }
    ensures bounded { TakesWithin (R.remaining reader.old) (R.remaining reader.new) }
{
    match read_input(alloc, reader) {
        Ok(input) => open_settings(alloc, hasher, input.as_slice(), writer, errors),
        Err(InputFault::NoMemory) => Err(Unopened::Early(Early::Settings)),
        Err(InputFault::Read) => Err(Unopened::Early(Early::Read)),
        Err(InputFault::TooLong) => Err(Unopened::Early(Early::TooLong)),
    }
}

/// Reads settings up to the end of the input and opens a core with them, whose tables hash by `hasher`; warnings go to `errors`.
/// Where no core is opened, it prints to `writer` what `check` prints of the settings, says in sentences to `errors` what went
/// wrong, and gives the exit status 1.
pub fn open_and_explain<R: Read, W: Write, E: Write>(
    alloc: Global,
    hasher: RandomState,
    reader: &mut R,
    writer: &mut W,
    errors: &mut E,
) -> Result<Opened, u8>
    ensures core { IfOk result (λ o. o.core ≡ first_core o.core.settings) }
    ensures bindings { IfOk result (λ o. o.bindings ≡ length o.core.settings.acls) }
    ensures opens { IfSome (R.remaining reader.old)
        (λ input. OpensOr (W.contents writer.old) (W.contents writer.new) input (check_answer input)
        result) }
    ensures failed { IfErr result (λ status. status ≡ 1) }
    ensures bounded { TakesWithin (R.remaining reader.old) (R.remaining reader.new) }
{
    match open_whole(alloc, hasher, reader, writer, errors) {
        Ok(opened) => Ok(opened),
        Err(Unopened::Refused) => Err(1),
        Err(Unopened::Early(early)) => {
            end_early(writer, early);
            explain(alloc, errors, Place::Run, early);
            Err(1)
        }
    }
}
