ghost use Rattle.snapshot_file.specs.Laws.{ReadLaw};

/// What a file of bytes stands for can be written: its ids and numbers have their widths, its texts are UTF-8, and its
/// lists are in order. What is written is bytes, and is read again if it keeps to the limit of a file. It does nothing:
/// the contract is a law.
pub fn read_law()
    ensures { ReadLaw }
{}
