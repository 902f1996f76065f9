// Laws of the definitions. The functions do nothing: each has a law as its contract.
ghost use Rattle.awk_store.specs.Laws.{BeginsSo, Changes, Enters, KeepsCount, KeepsState, Leaves, Reads, ReadsArray};
ghost use Rattle.awk_store.specs.Laws.{ReadsArrayAt, ReadsOwn, ReadsReference, ReadsText, ReadsVariable, SetsArray};
ghost use Rattle.awk_store.specs.Laws.{SetsArrayAt, SetsMain, SetsOwn, SetsPhase, SetsRandom, SetsStatus, SetsVariable};
ghost use Rattle.awk_store.specs.Laws.{TellsNf, TurnsOn, Unwinds};

/// What is read of a store is what the machine reads of its state.
pub fn reads()
    ensures variable { Reads ReadsVariable }
    ensures own { Reads ReadsOwn }
    ensures text { Reads ReadsText }
    ensures nf { Reads TellsNf }
    ensures reference { Reads ReadsReference }
    ensures array_at { Reads ReadsArrayAt }
    ensures array { Reads ReadsArray }
{}

/// To set a variable or an array of a store is to set it in the machine's state.
pub fn sets()
    ensures variable { Changes SetsVariable }
    ensures own { Changes SetsOwn }
    ensures array_at { Changes SetsArrayAt }
    ensures array { Changes SetsArray }
    ensures count { KeepsCount }
{}

/// Calls begin and end in a store as they do in the machine's state.
pub fn calls()
    ensures enters { Enters }
    ensures leaves { Leaves }
    ensures unwinds { Unwinds }
{}

/// What else is set in a store is set so in the machine's state.
pub fn others()
    ensures on { TurnsOn }
    ensures main { SetsMain }
    ensures random { SetsRandom }
    ensures phase { SetsPhase }
    ensures status { SetsStatus }
    ensures same { KeepsState }
{}

/// A new store stands for the machine's first state.
pub fn begins()
    ensures { BeginsSo }
{}
