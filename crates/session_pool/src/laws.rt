//! Laws about what sessions ask.

ghost use Rattle.std.specs.Prelude.{ℕ, List};
ghost use Rattle.settings_text.specs.declared.document.User.{User};
ghost use Rattle.session_pool.specs.Asks.{Setting};
ghost use Rattle.sasl_login.specs.declared.login.SessionState.{SessionState};
ghost use Rattle.session_pool.specs.Own.{AsksAreOwn};
ghost use Rattle.session_pool.specs.Unread.{LogsNobodyIn, GoesByItsFront};

/// Whatever bytes a session reads, only a user who has told the right password asks anything: each event is the request of a
/// frame, in the frames' order, and is asked by the user whom a frame before it logged in.
pub fn asks_are_own()
    ensures { (g : Setting) (n limit : ℕ) (input : List ℕ) → AsksAreOwn g n limit input }
{}

/// No frame that is longer than what is kept whole before a login tells the right password of a user.
pub fn long_frames_log_nobody_in()
    ensures { (users : List User) (frame : List ℕ) → LogsNobodyIn users frame }
{}

/// Before a login, what a frame leads to that is longer than what is kept whole depends on its first eight bytes and its length
/// alone.
pub fn long_frames_go_by_their_front()
    ensures { (g : Setting) (s : SessionState) (frame : List ℕ) → GoesByItsFront g s frame }
{}
