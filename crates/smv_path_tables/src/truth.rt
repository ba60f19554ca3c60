// The law of rows, the contract of a function that does nothing.
ghost use Rattle.smv_path_tables.specs.Truth.{RowsTellTheirValues};

/// The cells of a row tell the values that it is made of.
pub fn rows_tell_their_values()
    ensures { RowsTellTheirValues }
{}
