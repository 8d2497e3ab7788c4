// What decimal digits and the numbers that are read of them have to do with each other.
ghost use Rattle.dm_decimals.specs.Decimals.{DecimalIsRead, ReadIsWritten};

/// Law: what is written of a number of 64 bits in decimal is read as that number.
pub fn written_is_read()
    ensures { DecimalIsRead }
{}

/// Law: a text that is read as a number is what is written of it.
pub fn read_is_written()
    ensures { ReadIsWritten }
{}
