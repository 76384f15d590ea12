// A bitmap owns its bytes. Contracts see its number, its allocation and its picture.
ghost use Rattle.std.specs.Prelude.{◌≡◌, ℕ, ◌+◌, ◌*◌, ◌<◌, ◌≤◌, [], length, replicate, All, IfOk, IsTrue, ◌↔◌};
ghost use Rattle.bitmap_kind.specs.Stored.{pixel_bytes, stored};

use crate::pieces;
use faults::NoMemory;
use std::alloc::Global;
use std::marker::Model;

/// How a pixel is stored. The names are those of Android's `Bitmap.Config`.
#[derive(Clone, Copy, Debug, PartialEq, Eq)]
pub enum Config {
    /// Four bytes: red, green, blue, alpha.
    Argb8888,
    /// 16 bits, the low byte first: the high bits of red, green and blue. Alpha is lost.
    Rgb565,
    /// One byte: alpha.
    Alpha8,
}

impl Config {
    /// How many bytes a pixel takes.
    pub fn pixel_bytes(self) -> usize
        ensures { result ≡ pixel_bytes self }
    {
        match self {
            Config::Argb8888 => 4,
            Config::Rgb565 => 2,
            Config::Alpha8 => 1,
        }
    }
}

/// How a picture is brought to the wanted size, as Glide's transformations do.
#[derive(Clone, Copy, Debug, PartialEq, Eq)]
pub enum Transform {
    /// It keeps its size.
    Nothing,
    /// The whole of it, as large as the wanted box takes.
    Fit,
    /// Its middle, as large as fills the wanted box.
    Crop,
    /// The whole of it, made smaller where the wanted box does not take it.
    Inside,
}

/// Which side of the wanted size a sampled picture stays on.
#[derive(Clone, Copy, Debug, PartialEq, Eq)]
pub enum Rule {
    AtLeast,
    AtMost,
}

/// A picture and the memory that it lies in.
#[derive(Drop)]
pub struct Bitmap {
    number: u64,
    width: u32,
    height: u32,
    config: Config,
    memory: Vec<u8>,
}

impl Model for Bitmap {
    ghost use Rattle.bitmap_kind.specs.Picture.{BitmapValue};

    ghost Value = { BitmapValue };

    ghost use Rattle.bitmap_kind.specs.BitmapView.{value_of, IsWhole};

    ghost view = { value_of };

    ghost invariant = { IsWhole };
}

impl Bitmap {
    ghost use Rattle.bitmap_kind.specs.Picture.{BitmapValue, stored_size, picture_size, IsSize, FitsIn, pixel_at, pixels_at, run_at, blank, with_bytes, with_piece, with_pixels, reconfigured};

    /// The most pixels that a bitmap may have, a limit of this project.
    pub const MOST_PIXELS: u64 = 33_554_432;

    /// A bitmap of its own memory, all of whose bytes are 0.
    pub fn make(
        alloc: Global,
        number: u64,
        width: u32,
        height: u32,
        config: Config,
    ) -> Result<Bitmap, NoMemory>
        requires { IsSize width height }
        ensures { IfOk result (λ b. b ≡ record {
          number = number;
          allocation = stored_size width height config;
          picture = blank width height config;
          spare = [];
        }) }
    {
        let size = width as usize * height as usize * config.pixel_bytes();
        let memory = vec![in alloc; 0u8; size]?;
        Ok(Bitmap {
            number,
            width,
            height,
            config,
            memory,
        })
    }

    /// The number that it was made with.
    pub fn number(&self) -> u64
        ensures { result ≡ self.now.number }
    {
        self.number
    }

    /// In pixels.
    pub fn width(&self) -> u32
        ensures value { result ≡ self.now.picture.width }
        ensures size { IsSize self.now.picture.width self.now.picture.height }
        ensures len { length self.now.picture.bytes ≡ picture_size self.now.picture }
    {
        self.width
    }

    /// In pixels.
    pub fn height(&self) -> u32
        ensures value { result ≡ self.now.picture.height }
        ensures size { IsSize self.now.picture.width self.now.picture.height }
        ensures len { length self.now.picture.bytes ≡ picture_size self.now.picture }
    {
        self.height
    }

    /// How its pixels are stored.
    pub fn config(&self) -> Config
        ensures { result ≡ self.now.picture.config }
    {
        self.config
    }

    /// How many bytes of memory it has, which stay as they were made.
    pub fn allocation(&self) -> u64
        ensures value { result ≡ self.now.allocation }
        ensures room { picture_size self.now.picture ≤ self.now.allocation }
    {
        self.memory.len() as u64
    }

    /// The stored bytes: rows from the top, pixels from the left.
    pub fn bytes(&self) -> &[u8]
        ensures value { result.now ≡ self.now.picture.bytes }
        ensures len { length result.now ≡ picture_size self.now.picture }
    {
        let size = self.width as usize * self.height as usize * self.config.pixel_bytes();
        &self.memory[..size]
    }

    // The stored bytes of a run of neighbours in a row.
    fn run(&self, x: u32, y: u32, count: u32) -> &[u8]
        requires columns { x + count ≤ self.now.picture.width }
        requires row { y < self.now.picture.height }
        ensures value { result.now ≡ run_at self.now.picture x y count }
        ensures len { length result.now ≡ count * pixel_bytes self.now.picture.config }
    {
        let size = self.config().pixel_bytes();
        let at = (y as usize * self.width() as usize + x as usize) * size;
        let end = at + count as usize * size;
        &self.bytes()[at..end]
    }

    /// Whether its memory has room for a picture of these sides and this config.
    pub fn fits(&self, width: u32, height: u32, config: Config) -> bool
        ensures { IsTrue result ↔ FitsIn self.now.allocation width height config }
    {
        if width == 0 || height == 0 {
            return false;
        }
        let pixels = u64::from(width) * u64::from(height);
        if pixels > Self::MOST_PIXELS {
            return false;
        }
        pixels * config.pixel_bytes() as u64 <= self.memory.len() as u64
    }

    /// Sees the same memory with other sides and another config. No byte of it changes.
    pub fn reconfigure(&mut self, width: u32, height: u32, config: Config)
        requires { FitsIn self.old.allocation width height config }
        ensures { self.new ≡ reconfigured self.old width height config }
    {
        self.width = width;
        self.height = height;
        self.config = config;
    }

    /// Sets all stored bytes to 0.
    pub fn erase(&mut self)
        ensures { self.new ≡ with_bytes self.old (replicate (picture_size self.old.picture) 0) }
    {
        let size = self.width as usize * self.height as usize * self.config.pixel_bytes();
        pieces::write_zeros(&mut self.memory, size);
    }

    /// Stores a pixel, which is given as red, green, blue and alpha.
    pub fn put_pixel(&mut self, x: u32, y: u32, rgba: [u8; 4])
        requires column { x < self.old.picture.width }
        requires row { y < self.old.picture.height }
        ensures { self.new ≡ with_pixels self.old x y (stored self.old.picture.config rgba) }
    {
        let at = (y as usize * self.width as usize + x as usize) * self.config.pixel_bytes();
        pieces::write_pixels(&mut self.memory, at, self.config, &rgba, 1);
    }

    /// Stores a whole row of pixels, each of which is given as red, green, blue and alpha.
    pub fn put_row(&mut self, y: u32, rgba: &[u8])
        requires row { y < self.old.picture.height }
        requires pixels { length rgba.now ≡ 4 * self.old.picture.width }
        ensures { self.new ≡ with_piece self.old
            (y * (self.old.picture.width * pixel_bytes self.old.picture.config))
            (stored self.old.picture.config rgba.now) }
    {
        let width = self.width as usize;
        let at = y as usize * (width * self.config.pixel_bytes());
        pieces::write_pixels(&mut self.memory, at, self.config, rgba, width);
    }

    /// Stores a whole picture, which is given as its stored bytes: rows from the top, pixels from the left.
    pub fn put_bytes(&mut self, bytes: &[u8])
        requires { length bytes.now ≡ picture_size self.old.picture }
        ensures { self.new ≡ with_bytes self.old bytes.now }
    {
        pieces::write_bytes(&mut self.memory, 0, bytes);
    }

    /// Copies one pixel from another bitmap.
    pub fn copy_pixel(&mut self, x: u32, y: u32, from: &Bitmap, fx: u32, fy: u32)
        requires column { x < self.old.picture.width }
        requires row { y < self.old.picture.height }
        requires from_column { fx < from.now.picture.width }
        requires from_row { fy < from.now.picture.height }
        requires config { self.old.picture.config ≡ from.now.picture.config }
        ensures { self.new ≡ with_pixels self.old x y (pixel_at from.now.picture fx fy) }
    {
        self.copy_run(x, y, from, fx, fy, 1);
    }

    /// Copies a run of neighbours in a row from another bitmap.
    pub fn copy_run(&mut self, x: u32, y: u32, from: &Bitmap, fx: u32, fy: u32, count: u32)
        requires columns { x + count ≤ self.old.picture.width }
        requires row { y < self.old.picture.height }
        requires from_columns { fx + count ≤ from.now.picture.width }
        requires from_row { fy < from.now.picture.height }
        requires config { self.old.picture.config ≡ from.now.picture.config }
        ensures { self.new ≡ with_pixels self.old x y (run_at from.now.picture fx fy count) }
    {
        let at = (y as usize * self.width as usize + x as usize) * self.config.pixel_bytes();
        pieces::write_bytes(&mut self.memory, at, from.run(fx, fy, count));
    }

    /// Copies pixels into a row from another bitmap, the neighbours from these columns of one of its rows.
    pub fn copy_columns(&mut self, x: u32, y: u32, from: &Bitmap, fy: u32, columns: &[u32])
        requires columns { x + length columns.now ≤ self.old.picture.width }
        requires row { y < self.old.picture.height }
        requires from_columns { All (λ fx. fx < from.now.picture.width) columns.now }
        requires from_row { fy < from.now.picture.height }
        requires config { self.old.picture.config ≡ from.now.picture.config }
        ensures { self.new ≡ with_pixels self.old x y (pixels_at from.now.picture fy columns.now) }
    {
        let at = (y as usize * self.width as usize + x as usize) * self.config.pixel_bytes();
        let row = fy as usize * from.width() as usize;
        pieces::write_columns(
            &mut self.memory,
            at,
            self.config,
            from.bytes(),
            row,
            columns,
        );
    }
}
