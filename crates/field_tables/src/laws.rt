ghost use Rattle.field_tables.specs.Entries.{NoBitTwice, WithinHalf};

/// No bit of a half belongs to two values of the fields, texts and sums of one standard.
pub fn no_bit_means_two_things()
    ensures { NoBitTwice }
{}

/// The bits of each field, text and sum lie within the half that its row names.
pub fn each_entry_is_within_its_half()
    ensures { WithinHalf }
{}
