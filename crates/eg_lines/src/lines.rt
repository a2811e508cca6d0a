// Where lines come from, one by one.
ghost use Rattle.std.specs.Prelude.{◌≡◌, ◌≤◌, Ok, true, false, IsTrue, OnOk, OnErr, IsSome, IsErrOf};
ghost use Rattle.eg_base.specs.declared.store.ReadRefusal.TheVariants.{Failed, Memory};
ghost use Rattle.eg_base.specs.Outside.{Rose, BeginsWith};
ghost use Rattle.eg_lines.specs.Lines.{ShownLines, NextLine, EndsLines};

use eg_base::ReadRefusal;

/// Lines that come one by one from outside, such as those of standard input.
///
/// A line is what stands between line feeds, a carriage return included. The last line may lack its line
/// feed, and behind a line feed that ends the input there is no line. Contracts see what a source of lines
/// shows (`ShownLines`): the lines still to come, where they are told, the count of its faults, which never
/// falls and rises with each Failed up to the last value of a u64, and whether it is sure.
pub trait Lines {
    /// The lines still to come, faults and whether it is sure.
    ghost shows: { Self → ShownLines };

    /// Appends the first `most` bytes of the next line to `into`, or all where it is shorter, without its
    /// line feed. Answers whether there was a line.
    fn next(&mut self, most: usize, into: &mut Vec<u8>) -> Result<bool, ReadRefusal>
        ensures line { result ≡ Ok true
            → NextLine most (shows self.old) (shows self.new) into.old.items into.new.items }
        ensures end { result ≡ Ok false
            → EndsLines (shows self.old) (shows self.new) into.old.items into.new.items }
        ensures stays_sure { (shows self.new).sure ≡ (shows self.old).sure }

        // A refusal loses nothing that the buffer held, and no line that is told.
        ensures kept { OnErr result (BeginsWith into.old.items into.new.items) }
        ensures none_lost { OnErr result ((shows self.new).lines ≡ (shows self.old).lines) }

        // Each Failed is counted, and nothing else is. Over a sure source, which tells its lines, none comes.
        ensures count { (shows self.old).faults ≤ (shows self.new).faults }
        ensures no_fault { OnOk result ((shows self.new).faults ≡ (shows self.old).faults) }
        ensures cause { IsErrOf result Failed → Rose (shows self.old).faults (shows self.new).faults }
        ensures memory { IsErrOf result Memory → (shows self.new).faults ≡ (shows self.old).faults }
        ensures told { IsTrue (shows self.old).sure → IsSome (shows self.old).lines }
        ensures sure { IsTrue (shows self.old).sure → ¬ IsErrOf result Failed };
}
