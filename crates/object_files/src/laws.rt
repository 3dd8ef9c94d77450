//! Laws of names: functions that do nothing, whose contracts are the laws.

ghost use Rattle.object_files.specs.Paths.{NamesDiffer, AsidesAreNoKeys};

/// Two keys have two names, so the key that `key_of` reads of a key's name is that key.
pub fn names_are_told_apart()
    ensures { NamesDiffer }
{}

/// No object lies where a file is written before it is moved to its place.
pub fn asides_are_no_keys()
    ensures { AsidesAreNoKeys }
{}
