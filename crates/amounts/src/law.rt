ghost use Rattle.amounts.specs.Laws.{TextsAreRead, TextsDiffer};

/// The text of a number is an amount, and is read as that number.
pub fn amount_texts_are_read()
    ensures { TextsAreRead }
{}

/// Two numbers have different texts at one scale.
pub fn amount_texts_differ()
    ensures { TextsDiffer }
{}
