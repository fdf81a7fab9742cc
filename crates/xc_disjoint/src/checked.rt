ghost use Rattle.std.specs.Prelude.{◌≡◌};
ghost use Rattle.xc_disjoint.specs.Checked.{IsChecked};
ghost use Rattle.xc_kernel.specs.Kernels.{kernel_of};

use std::marker::Model;
use xc_kernel::Kernel;

/// The kernel of a program that breaks no rule and whose tree is no deeper than 200. Contracts see the kernel.
#[derive(Drop)]
pub struct Checked {
    kernel: Kernel,
}

impl Model for Checked {
    ghost use Rattle.xc_disjoint.specs.Checked.{IsChecked};
    ghost use Rattle.xc_kernel.specs.Kernels.{kernel_of};
    ghost use Rattle.xc_kernel.specs.declared.kernel.Kernel.{Kernel as K};
    ghost use Rattle.xc_kernel.specs.contracts.statement.Kst as e;
    ghost use Rattle.std.specs.Coded.{codes};

    ghost Value = { K };

    ghost coded = { Prim.hlevel (codes, e.the_row.coded) };

    ghost view = { λ c. c.kernel };

    ghost invariant = { λ c. IsChecked (kernel_of c.kernel) };
}

impl Checked {
    /// A kernel that was checked.
    pub(crate) fn new(kernel: Kernel) -> Checked
        requires { IsChecked (kernel_of kernel) }
        ensures { result ≡ kernel }
    {
        Checked { kernel }
    }

    /// The kernel, which breaks no rule and is that of a program that breaks none and whose tree is no deeper than 200.
    pub fn kernel(&self) -> &Kernel
        ensures kernel { result.now ≡ self.now }
        ensures accepted { IsChecked (kernel_of self.now) }
    {
        &self.kernel
    }
}
