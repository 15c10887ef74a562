//! Laws over the rules of a login: the broker's own has each, and the wrong ones that are named beside it have it not.

ghost use Rattle.sasl_login.specs.LoginMessage.{login_of};
ghost use Rattle.session_laws.specs.Logins.{LogsInByPassword, OnlyRuleOfLogins, login_by_name, login_for_anybody, login_without_identity};
ghost use Rattle.session_laws.specs.Refused.{WrongPasswordIsLast, asks_after_refusals};
ghost use Rattle.session_pool.specs.Asks.{asks_of, text_of};

/// A message of PLAIN logs a user in by its own name and password, with an authorization identity that is empty or that name, and
/// in no other way.
pub fn passwords_log_in()
    ensures exact { LogsInByPassword login_of }
    ensures by_password { ¬ LogsInByPassword login_by_name }
    ensures as_itself { ¬ LogsInByPassword login_for_anybody }
    ensures by_identity { ¬ LogsInByPassword login_without_identity }
    ensures only { OnlyRuleOfLogins login_of }
{}

/// After a wrong password nothing that a client sends is asked or answered.
pub fn wrong_passwords_are_last()
    ensures last { WrongPasswordIsLast asks_of text_of }
    ensures ended { ¬ WrongPasswordIsLast asks_after_refusals text_of }
{}
