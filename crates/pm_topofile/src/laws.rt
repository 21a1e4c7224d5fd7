//! Laws of the text of a topology.

ghost use Rattle.std.specs.Prelude.{◌≡◌, ℕ, ◌↔◌, List, Ok};
ghost use Rattle.pm_topology.specs.WellFormed.{IsSupported};
ghost use Rattle.pm_topology.specs.declared.topology.Topology.{Topology};
ghost use Rattle.pm_topofile.specs.Meaning.{meaning};
ghost use Rattle.pm_topofile.specs.Means.{Means};
ghost use Rattle.pm_topofile.specs.Printing.{HasSmallNumbers, text_of};

/// What is read of a text, line by line, is what it means, and that is one topology at most.
pub fn one_topology()
    ensures read { (text : List ℕ) (t : Topology) → meaning text ≡ Ok t ↔ Means text t }
    ensures one { (text : List ℕ) (t u : Topology) → Means text t → Means text u → t ≡ u }
{}

/// The printed text of a topology means that topology. `print_topology` ensures that its numbers have 32 bits.
pub fn printed_topology_is_read_again()
    ensures { (t : Topology) → IsSupported t → HasSmallNumbers t → meaning (text_of t) ≡ Ok t }
{}
