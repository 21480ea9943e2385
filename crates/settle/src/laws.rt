// What holds of every script.
ghost use Rattle.settle.specs.Scripts.{LineByLine};

// The bytes of a script are answered line by line. The function does nothing: its contract asks for the proof.
pub fn scripts_go_by_lines()
    ensures { LineByLine }
{}
