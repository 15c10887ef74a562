//! Laws of what is listed and sent before a login.

ghost use Rattle.std.specs.Prelude.{◌≡◌, ◌≤◌, ℕ, List, length, Some};
ghost use Rattle.settings_text.specs.declared.document.User.{User};
ghost use Rattle.sasl_login.specs.ListedLaws.{VersionsAreListed};
ghost use Rattle.sasl_login.specs.LoginMessage.{login_of, longest_login};
ghost use Rattle.sasl_login.specs.Plain.{LoginIsExact};

/// A message logs a user in exactly where it is `authzid NUL name NUL password` of that user's name and password, with an
/// authorization identity that is empty or the name, and no other NUL (RFC 4616, section 2).
pub fn login_is_exact()
    ensures { (users : List User) (message : List ℕ) → LoginIsExact users message }
{}

/// No message that logs somebody in is longer than the longest one that can be made of a user's name and password.
pub fn no_login_is_longer()
    ensures { (users : List User) (message who : List ℕ) → login_of users message ≡ Some who
        → length message ≤ longest_login users }
{}

/// Before a login ApiVersions lists each api in the versions that are served; for librdkafka it lists FindCoordinator and
/// SaslHandshake from version 0 on.
pub fn versions_are_listed()
    ensures { VersionsAreListed }
{}
