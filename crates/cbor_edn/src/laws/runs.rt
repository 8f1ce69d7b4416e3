//! Laws of whole runs.
ghost use Rattle.cbor_edn.specs.RunLaws.{StepsGiveOnce, OneOutput, OutputOrFault, OneFault, ReadsBack};

/// An input has one output, or one fault.
pub fn one_result()
    ensures steps { StepsGiveOnce }
    ensures output { OneOutput }
    ensures output_or_fault { OutputOrFault }
    ensures fault { OneFault }
{}

/// What `Cbor2Diag` shows of some bytes, `Diag2Cbor` encodes as these bytes again.
pub fn reads_back()
    ensures { ReadsBack }
{}
