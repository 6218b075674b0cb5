ghost use Rattle.instance_gen.specs.Laws.{GeneratedAreConnected, GeneratedFitFile, WrittenAreRead};

/// Every instance that is drawn is connected, so it has a tree, whatever is required.
pub fn generated_are_connected()
    ensures { GeneratedAreConnected }
{}

/// Every instance that is drawn fits into a file of wholes, so its text is read as this instance.
pub fn generated_fit_file()
    ensures { GeneratedFitFile }
{}

/// The text of an instance that fits into a file at a scale is read as the same instance at this scale.
pub fn written_are_read()
    ensures { WrittenAreRead }
{}
