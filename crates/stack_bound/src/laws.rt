//! Laws of certificates: each function does nothing, and its contract is the law.
ghost use Rattle.std.specs.Prelude.{List};
ghost use Rattle.plc_base.specs.declared.Profile.{Profile};
ghost use Rattle.plc_base.specs.declared.blocks.BlockId.{BlockId};
ghost use Rattle.flat_code.specs.Programs.{Program};
ghost use Rattle.stack_bound.specs.Certificates.{IsCertificateOf};
ghost use Rattle.stack_bound.specs.Chains.{IsCallChain, IsTooDeep};
ghost use Rattle.stack_bound.specs.Overflow.{CertificatesKeepStacks};
ghost use Rattle.stack_bound.specs.declared.certificates.Bound.{Bound};

/// Where a certificate holds no chain of calls is too deep.
pub fn no_chain_is_too_deep()
    ensures { (profile : Profile) (p : Program) (c : List Bound) (chain : List BlockId)
        → IsCertificateOf profile p c → IsCallChain p chain → IsTooDeep profile p chain
        → ⊥ }
{}

/// Where a certificate holds of a program that verifies, no valid history of it leads to a STOP by block
/// depth or local data.
pub fn certificates_keep_stacks()
    ensures { CertificatesKeepStacks }
{
    controller::laws::what_runs_goes_on();
}
