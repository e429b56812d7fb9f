//! The laws of tables, each the contract of a function that does nothing.
//! It knows the definitions alone.
ghost use Rattle.seat_tables.specs.Rows.{CsvReadsBack};

/// What is written as CSV is read back: the records of the text are the columns' names, and the texts of each row's values.
pub fn csv_reads_back()
    ensures { CsvReadsBack }
{}
