/// How many fields there are.
pub(crate) const FIELDS: usize = 14;

/// A field of memory bank 1 that an order may write (IEC 62386-251, content format 0003h).
#[derive(Clone, Copy, PartialEq, Eq)]
pub enum Field {
    /// The global trade item number of the luminaire.
    Gtin,
    /// The identification number of the luminaire.
    Identification,
    /// The last two digits of the year of manufacture, 0 to 99.
    Year,
    /// The week of manufacture, 1 to 53.
    Week,
    /// The nominal input power, 0 to 65534 W.
    InputPower,
    /// The power at the minimum dim level, 0 to 65534 W.
    MinDimPower,
    /// The nominal minimum AC mains voltage, 0 to 65534 V.
    MinVoltage,
    /// The nominal maximum AC mains voltage, 0 to 65534 V.
    MaxVoltage,
    /// The nominal light output, 0 to 16777214 lm.
    LightOutput,
    /// The colour rendering index, 0 to 100.
    Cri,
    /// The correlated colour temperature, 0 to 65533 K (profile).
    Cct,
    /// The light distribution type, 0 to 254.
    Distribution,
    /// The colour of the luminaire, a text of 1 to 24 characters.
    Colour,
    /// The identification of the luminaire, a text of 1 to 60 characters.
    Luminaire,
}

/// The values that a field takes, and how they are spelled.
#[derive(Clone, Copy)]
pub(crate) enum Form {
    /// The digits of a GTIN, as one number.
    Gtin,
    /// Sixteen hexadecimal digits, as eight bytes.
    Identification,
    /// A number from the least to the most.
    Number { least: u64, most: u64 },
    /// A text, filled up with zeros.
    Text,
}

impl Form {
    ghost use Rattle.std.specs.Prelude.{◌≡◌};

    // A number from 0 to the most.
    fn up_to(most: u64) -> Form
        ensures { result ≡ Form.Number 0 most }
    {
        Form::Number { least: 0, most }
    }
}

/// A field's row of the layout: where it begins, how many bytes it has, and what it takes.
#[derive(Clone, Copy)]
pub(crate) struct Row {
    pub first: u8,
    pub length: u8,
    pub form: Form,
}

impl Field {
    ghost use Rattle.std.specs.Prelude.{◌≡◌, ◌<◌};
    ghost use Rattle.dali_bank.specs.Keys.{key_of};
    ghost use Rattle.dali_bank.specs.Layout.{row_of, rank_of, first_of, length_of};

    /// The fields, by rising location.
    pub const ALL: [Field; FIELDS] = [
        Field::Gtin,
        Field::Identification,
        Field::Year,
        Field::Week,
        Field::InputPower,
        Field::MinDimPower,
        Field::MinVoltage,
        Field::MaxVoltage,
        Field::LightOutput,
        Field::Cri,
        Field::Cct,
        Field::Distribution,
        Field::Colour,
        Field::Luminaire,
    ];

    /// The first location, 03h to 77h.
    pub fn first(&self) -> u8
        ensures { result ≡ first_of self.now }
    {
        self.row().first
    }

    /// How many bytes the field has, 1 to 60.
    pub fn length(&self) -> u8
        ensures { result ≡ length_of self.now }
    {
        self.row().length
    }

    /// The field's key in an order, and its word where a bank is shown (profile).
    pub fn key(&self) -> &'static str
        ensures { result.now ≡ key_of self.now }
    {
        match self {
            Field::Gtin => "gtin",
            Field::Identification => "identification",
            Field::Year => "year",
            Field::Week => "week",
            Field::InputPower => "input_power",
            Field::MinDimPower => "min_dim_power",
            Field::MinVoltage => "min_voltage",
            Field::MaxVoltage => "max_voltage",
            Field::LightOutput => "light_output",
            Field::Cri => "cri",
            Field::Cct => "cct",
            Field::Distribution => "distribution",
            Field::Colour => "colour",
            Field::Luminaire => "luminaire",
        }
    }

    // The layout: one row for each field.
    pub(crate) fn row(&self) -> Row
        ensures { result ≡ row_of self.now }
    {
        let (first, length, form) = match self {
            Field::Gtin => (0x03, 6, Form::Gtin),
            Field::Identification => (0x09, 8, Form::Identification),
            Field::Year => (0x13, 1, Form::up_to(99)),
            Field::Week => (0x14, 1, Form::Number { least: 1, most: 53 }),
            Field::InputPower => (0x15, 2, Form::up_to(65534)),
            Field::MinDimPower => (0x17, 2, Form::up_to(65534)),
            Field::MinVoltage => (0x19, 2, Form::up_to(65534)),
            Field::MaxVoltage => (0x1b, 2, Form::up_to(65534)),
            Field::LightOutput => (0x1d, 3, Form::up_to(16777214)),
            Field::Cri => (0x20, 1, Form::up_to(100)),
            Field::Cct => (0x21, 2, Form::up_to(65533)),
            Field::Distribution => (0x23, 1, Form::up_to(254)),
            Field::Colour => (0x24, 24, Form::Text),
            Field::Luminaire => (0x3c, 60, Form::Text),
        };
        Row {
            first,
            length,
            form,
        }
    }

    // The field's place in `Field::ALL`.
    pub(crate) fn rank(&self) -> usize
        ensures value { result ≡ rank_of self.now }
        ensures within { result < 14 }
    {
        *self as usize
    }
}
