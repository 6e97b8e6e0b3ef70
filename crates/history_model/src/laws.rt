//! What holds of the tests of rows.
ghost use Rattle.history_model.specs.RepeatLaws.{FirstRepeatsAreNamed};

/// A law: of keys that come twice the first that ties with an earlier one is named.
pub fn first_repeats_are_named()
    ensures { FirstRepeatsAreNamed }
{}
