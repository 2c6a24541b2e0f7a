// What each instruction costs.
ghost use Rattle.std.specs.Prelude.{◌≤◌};
ghost use Rattle.rv_core.specs.CostRange.{IsFetchCost};

/// The costs of a machine in cycles: of a fetch by the region of the code, of an instruction by
/// its class, and of a load or store by the region of the data; and how long an instruction waits
/// for a register that the one before it loads. A fetch costs from 1 to 1000, and all else at most
/// 1000.
#[derive(Clone, Copy)]
pub struct Costs {
    pub fetch_flash: u32,
    pub fetch_spm: u32,
    pub alu: u32,
    pub mul: u32,
    pub div: u32,
    pub load: u32,
    pub store: u32,
    pub branch: u32,
    pub branch_taken: u32,
    pub jump: u32,
    pub ecall: u32,
    pub data_flash: u32,
    pub data_ram: u32,
    pub data_spm: u32,
    pub stall: u32,
    pub ghost flash: { IsFetchCost fetch_flash },
    pub ghost spm: { IsFetchCost fetch_spm },
    pub ghost alu_most: { alu ≤ 1000 },
    pub ghost mul_most: { mul ≤ 1000 },
    pub ghost div_most: { div ≤ 1000 },
    pub ghost load_most: { load ≤ 1000 },
    pub ghost store_most: { store ≤ 1000 },
    pub ghost branch_most: { branch ≤ 1000 },
    pub ghost taken_most: { branch_taken ≤ 1000 },
    pub ghost jump_most: { jump ≤ 1000 },
    pub ghost ecall_most: { ecall ≤ 1000 },
    pub ghost data_flash_most: { data_flash ≤ 1000 },
    pub ghost data_ram_most: { data_ram ≤ 1000 },
    pub ghost data_spm_most: { data_spm ≤ 1000 },
    pub ghost stall_most: { stall ≤ 1000 },
}
