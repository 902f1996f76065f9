// What is one alone, and what is kept. The functions do nothing: each has a law as its contract.
ghost use Rattle.awk_fields.specs.Laws.{OneList, OneRow, KeptAgain, KeptFields};

/// A text has one list of fields by a separator, and a record has one list of fields.
pub fn one_list()
    ensures texts { OneList }
    ensures fields { OneRow }
{}

/// A record that was asked for its fields, however often, is kept, and has the fields that it had.
pub fn kept_record()
    ensures again { KeptAgain }
    ensures fields { KeptFields }
{}
