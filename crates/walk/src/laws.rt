//! Laws of the walk, each the contract of a function with nothing to do.

ghost use Rattle.walk.specs.Woven.{OneWalk, FirstIsGranted};
ghost use Rattle.walk.specs.Headline.{AnswersEachPart};

/// Serving or refusing one part after the other comes to the same as serving the allowed parts alone and then putting the
/// refused parts' answers at their places.
pub fn one_walk<P, A, W>()
    ensures { OneWalk P A W }
{}

/// Each part is answered at its place in the request: a refused one by its code, any other as a broker without permissions
/// would answer the parts that aren't refused.
pub fn answers_each_part<P, A, W>()
    ensures { AnswersEachPart P A W }
{}

/// If a request has a part and none was refused, then a question that each part asks first is granted.
pub fn first_is_granted<P, A, W>()
    ensures { FirstIsGranted P A W }
{}
