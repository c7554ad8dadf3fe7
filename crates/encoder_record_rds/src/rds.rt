// The record of the multiplex encoder with RDS: construction, set calls and read-outs.
ghost use Rattle.std.specs.Prelude.{◌≡◌};
ghost use Rattle.answers.specs.Answer.{says_made, says_changed};
ghost use Rattle.encoder_record_rds.specs.EncodeRds.{new_rds_of, set_rds_of, set_rds_pilot_of, rds_at};

use answers::answer::Refusal;
use encoder_record::encode::{StereoEncode, good_level};

// The stereo part, and the level of RDS.
#[repr(C)]
#[derive(Clone, Copy)]
pub struct StereoEncodeRds {
    pub enc: StereoEncode,
    pub rds: f32,
}

impl StereoEncodeRds {
    // The causes of the stereo part, then 16.
    pub fn new(
        frequency: f64,
        main: f32,
        pilot: f32,
        rds: f32,
        rate: f64,
    ) -> Result<StereoEncodeRds, Refusal>
        ensures { says_made result ≡ new_rds_of frequency main pilot rds rate }
    {
        let enc = StereoEncode::new(frequency, main, pilot, rate)?;
        if !good_level(rds) {
            return Err(Refusal::RdsLevel);
        }
        Ok(StereoEncodeRds { enc, rds })
    }

    pub fn set_rds(&mut self, rds: f32) -> Result<(), Refusal>
        ensures { says_changed result self.new ≡ set_rds_of self.old rds }
    {
        // tested first: a refused call leaves the encoder as it was
        if !good_level(rds) {
            return Err(Refusal::RdsLevel);
        }
        self.rds = rds;
        Ok(())
    }

    pub fn rds(self) -> f32
        ensures { result ≡ self.rds }
    {
        self.rds
    }

    pub fn set_pilot(&mut self, pilot: f32) -> Result<(), Refusal>
        ensures { says_changed result self.new ≡ set_rds_pilot_of self.old pilot }
    {
        self.enc.set_pilot(pilot)
    }

    pub fn pilot(self) -> f32
        ensures { result ≡ self.enc.pilot }
    {
        self.enc.pilot
    }

    pub fn main(self) -> f32
        ensures { result ≡ self.enc.main }
    {
        self.enc.main
    }

    pub fn phase(self) -> u32
        ensures { result ≡ self.enc.nco.phase }
    {
        self.enc.nco.phase
    }

    pub fn set_phase(self, p: u32) -> StereoEncodeRds
        ensures { result ≡ rds_at self p }
    {
        let old = self.enc;
        let enc = old.set_phase(p);
        StereoEncodeRds { enc, rds: self.rds }
    }

    pub fn increment(self) -> u32
        ensures { result ≡ self.enc.nco.inc }
    {
        self.enc.nco.inc
    }

    pub fn encoder(self) -> StereoEncode
        ensures { result ≡ self.enc }
    {
        self.enc
    }

    pub fn reset(self) -> StereoEncodeRds
        ensures { result ≡ rds_at self 0 }
    {
        self.set_phase(0)
    }
}
