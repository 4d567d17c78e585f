// Why the format can be believed: each function has a theorem for its contract.

#![tactic(auto)]

ghost use Rattle.chain_format.specs.Theorems.{OpensRightly, OpensExactlyFiles, ReadThenWrite, WriteThenRead};

pub fn opens_rightly()
    ensures { OpensRightly }
{}

pub fn opens_exactly_files()
    ensures { OpensExactlyFiles }
{}

pub fn read_then_write()
    ensures { ReadThenWrite }
{}

pub fn write_then_read()
    ensures { WriteThenRead }
{}
